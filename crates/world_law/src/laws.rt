//! The laws of the world, over every list of events.
ghost use Rattle.std.specs.Prelude.{ℕ, List};
ghost use Rattle.host_model.specs.declared.config.Config.{Config};
ghost use Rattle.world_law.specs.Events.{Event, MayRun, Right, run};
ghost use Rattle.world_law.specs.Laws.{AllAccepted, AllBacked, AllGrown, AllLawful, Booked, FitAnswers, Keyed, KeptAnswers, Once, Safe};
ghost use Rattle.world_law.specs.World.{start};

/// The rows of each stage ascend by key, so no two have one key, and each is found by its own.
pub fn law_keyed()
    ensures { (names : ℕ → List ℕ) (configs : ℕ → Config) (events : List Event) → Keyed (run events (start names configs)) }
{}

/// No two booked rows of a host conflict, in any stage.
pub fn law_booked()
    ensures { (names : ℕ → List ℕ) (configs : ℕ → Config) (events : List Event) → Booked (run events (start names configs)) }
{}

/// Each proposal of a run's lead and each booking was accepted exactly where it may be.
pub fn law_fit()
    ensures { (names : ℕ → List ℕ) (configs : ℕ → Config) (events : List Event) → FitAnswers (run events (start names configs)) }
{}

/// Each stage's book is lawful for its host.
pub fn law_lawful()
    ensures { (names : ℕ → List ℕ) (configs : ℕ → Config) → ((h : ℕ) → Right names h (configs h)) → (events : List Event) → MayRun (start names configs) events → AllLawful (run events (start names configs)) }
{}

/// Each stage has grown from each earlier stage of its host.
pub fn law_grown()
    ensures { (names : ℕ → List ℕ) (configs : ℕ → Config) → ((h : ℕ) → Right names h (configs h)) → (events : List Event) → MayRun (start names configs) events → AllGrown (run events (start names configs)) }
{}

/// What was answered is kept: a task for ever, a row with its moments and its result for seven days after its rest.
pub fn law_kept()
    ensures { (names : ℕ → List ℕ) (configs : ℕ → Config) → ((h : ℕ) → Right names h (configs h)) → (events : List Event) → MayRun (start names configs) events → KeptAnswers (run events (start names configs)) }
{}

/// Each message that was sent is backed by its sender's row.
pub fn law_backed()
    ensures { (names : ℕ → List ℕ) (configs : ℕ → Config) → ((h : ℕ) → Right names h (configs h)) → (events : List Event) → MayRun (start names configs) events → AllBacked (run events (start names configs)) }
{}

/// Rows of one key agree, and what one host knows of another's acceptance is so.
pub fn law_accepted()
    ensures { (names : ℕ → List ℕ) (configs : ℕ → Config) → ((h : ℕ) → Right names h (configs h)) → (events : List Event) → MayRun (start names configs) events → AllAccepted (run events (start names configs)) }
{}

/// A proposal acts once, and none that was sent is answered as differing.
pub fn law_once()
    ensures { (names : ℕ → List ℕ) (configs : ℕ → Config) → ((h : ℕ) → Right names h (configs h)) → (events : List Event) → MayRun (start names configs) events → Once (run events (start names configs)) }
{}

/// All of it: no conflict, no run without the acceptance of each participant, nothing lost that was answered, nothing refused that fits.
pub fn law_safe()
    ensures { (names : ℕ → List ℕ) (configs : ℕ → Config) → ((h : ℕ) → Right names h (configs h)) → (events : List Event) → MayRun (start names configs) events → Safe (run events (start names configs)) }
{}
