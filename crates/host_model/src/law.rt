//! What holds of every step of every host.
ghost use Rattle.std.specs.Prelude.{◌≤◌, ℕ};
ghost use Rattle.host_model.specs.Book.{Book};
ghost use Rattle.host_model.specs.Conditions.{MayStep};
ghost use Rattle.host_model.specs.Grown.{Grown};
ghost use Rattle.host_model.specs.InputLength.{input_texts, most_input_texts, most_step_bytes};
ghost use Rattle.host_model.specs.Lawful.{Lawful};
ghost use Rattle.host_model.specs.MayFollow.{MayFollow};
ghost use Rattle.host_model.specs.RecordLength.{record_bytes};
ghost use Rattle.host_model.specs.Step.{step_book, step_changes};
ghost use Rattle.host_model.specs.declared.config.Config.{Config};
ghost use Rattle.host_model.specs.declared.input.Input.{Input};

/// A law: each step that may be made leaves a lawful book, which has grown from the one before; its record may follow that one,
/// and is at most 8,388,608 bytes long where the texts and lists of the input take at most 2,097,152.
pub fn law_step()
    ensures lawful { (c : Config) (b : Book) (clock : ℕ) (i : Input) → MayStep c b clock i → Lawful c.number (step_book c b clock i) }
    ensures grown { (c : Config) (b : Book) (clock : ℕ) (i : Input) → MayStep c b clock i → Grown b (step_book c b clock i) }
    ensures follows { (c : Config) (b : Book) (clock : ℕ) (i : Input) → MayStep c b clock i → MayFollow c.number b (step_changes c b clock i) }
    ensures short { (c : Config) (b : Book) (clock : ℕ) (i : Input) → MayStep c b clock i → input_texts i ≤ most_input_texts
        → record_bytes (step_changes c b clock i).list ≤ most_step_bytes }
{}
