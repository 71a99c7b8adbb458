//! What holds of the members of every object.
ghost use Rattle.std.specs.Prelude.{◌≡◌, ◌≢◌, ℕ, List, None};
ghost use Rattle.serde_json.specs.Data.{Members};
ghost use Rattle.serde_json.specs.Find.{get_member};
ghost use Rattle.ps_json.specs.Fields.{without_member};

/// A member that was taken is gone, and every other one stays.
pub fn law_taken_once()
    ensures gone { (name : List ℕ) (ms : Members) → get_member name (without_member name ms) ≡ None }
    ensures others { (name other : List ℕ) (ms : Members) → other ≢ name
        → get_member other (without_member name ms) ≡ get_member other ms }
{}
