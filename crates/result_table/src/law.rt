//! What a list of attempts stores.
ghost use Rattle.std.specs.Prelude.{◌≡◌, [], List};
ghost use Rattle.std.specs.List.{fold};
ghost use Rattle.result_table.specs.Stored.{Delivery, stored, after_delivery};

/// A law: a table that takes up each of a list of attempts, beginning with none, is what the whole list stores. So each run
/// that was ever delivered stands once, with the moment of its first delivery and the result of its last one.
pub fn law_stored()
    ensures { (attempts : List Delivery) → fold after_delivery [] attempts ≡ stored attempts }
{}
