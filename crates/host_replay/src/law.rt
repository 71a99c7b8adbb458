//! A law of lists.
ghost use Rattle.std.specs.Prelude.{◌≡◌, List, ℕ};
ghost use Rattle.host_model.specs.Book.{Book};
ghost use Rattle.host_replay.specs.Stands.{StandsFor};

use host_codec::first::law_first;

/// A law: a list stands for one book alone, in whichever format.
pub fn law_one_book()
    ensures { (self : ℕ) (list : List (List ℕ)) (a b : Book) → StandsFor self list a → StandsFor self list b → a ≡ b }
{
    law_first();
}
