//! Archivers as a rehearsal has them.
ghost use Rattle.std.specs.Prelude.{◌≡◌, ◌≢◌, List, ℕ};
ghost use Rattle.ps_doors.specs.Archiver.{HasLength};
ghost use Rattle.ps_doors.specs.declared.archiver.Tried.{Tried as Outcome};

use ps_doors::archiver::Tried;
use ps_time::key::RunKey;
use std::alloc::Global;

/// Archivers by their names. What comes of an attempt is told by the archiver's name, the settings, and how many attempts were made
/// before, and by nothing else: so a script has one report.
pub trait Archivers {
    // By these three, in this order.
    ghost comes: { Self → List ℕ → List ℕ → ℕ → Outcome };

    /// Has the archiver of a name try once to archive the merged result of a run. `tried` is how many attempts were made before.
    fn attempt(
        &mut self,
        alloc: Global,
        archiver: &str,
        key: RunKey,
        tried: u32,
        settings: &str,
        merged: &str,
    ) -> Tried
        ensures decided { result ≢ Tried.Memory → result ≡ comes self.old archiver.now settings.now tried }
        ensures stays { comes self.new ≡ comes self.old }
        ensures retry { HasLength result };
}
