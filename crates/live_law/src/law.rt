//! What rows that aren't live mean for a host.
ghost use Rattle.std.specs.Prelude.{◌≡◌, None, List, false, ℕ};
ghost use Rattle.run_states.specs.Life.{settled_row};
ghost use Rattle.run_states.specs.declared.row.RunRow.{RunRow};
ghost use Rattle.host_model.specs.Apply.{settled};
ghost use Rattle.host_model.specs.Archives.{due_pairs};
ghost use Rattle.host_model.specs.Book.{Book};
ghost use Rattle.host_model.specs.Draft.{Draft, fresh, turned};
ghost use Rattle.host_model.specs.Ending.{restart_run};
ghost use Rattle.host_model.specs.Lawful.{Lawful};
ghost use Rattle.host_model.specs.Orders.{orders_of};
ghost use Rattle.host_model.specs.declared.config.Config.{Config};
ghost use Rattle.live_law.specs.Groups.{going_keys, let_go, turned_by, turned_most, turned_over};
ghost use Rattle.host_rows.specs.Still.{is_live, is_live_by, keys_live_by, live_rows, StillStay};

/// A law: the turn whose groups over rows go only over the keys of the rows that were live by its moment, but for the purging, is
/// the turn.
pub fn law_turn()
    ensures { (c : Config) (m : ℕ) (d : Draft) → Lawful c.number d.book → turned_over c m (keys_live_by c.number m d.book.rows) d ≡ turned c m d }
{}

/// A law: so is the turn of a host's book, whose groups go only over keys that stood before it settled: those of the rows that
/// were live by its moment, and for the purging those of the rows that are long past beside. What a turn asks about doesn't go in it.
pub fn law_begun()
    ensures { (c : Config) (m : ℕ) (b : Book) → Lawful c.number b → turned_by c m (keys_live_by c.number m b.rows) (going_keys c.number m b.rows) (fresh (settled m b)) ≡ turned c m (fresh (settled m b)) }
{}

/// A law: where none of the rows that are still may go at the moment, and the groups before the purging ask about no run whose
/// task's newest row is long past, the purging need go over no more keys than the others.
pub fn law_purging()
    ensures { (c : Config) (m : ℕ) (b : Book) → Lawful c.number b → StillStay c.number b.rows m → let_go m b.rows (turned_most c m (keys_live_by c.number m b.rows) (fresh (settled m b))).changes ≡ false → turned_by c m (keys_live_by c.number m b.rows) (keys_live_by c.number m b.rows) (fresh (settled m b)) ≡ turned c m (fresh (settled m b)) }
{}

/// A law: a row that isn't live by a moment doesn't lapse by then; one that isn't live whatever the moment doesn't end where its
/// host is opened anew; and the live ones have all orders and all archives that are due.
pub fn law_still()
    ensures stands { (self m : ℕ) (r : RunRow) → is_live_by self m r ≡ false → settled_row m r ≡ r }
    ensures opened { (c : Config) (b : Book) (r : RunRow) → is_live c.number r ≡ false → restart_run c b r ≡ None }
    ensures orders { (self m : ℕ) (rows : List RunRow) → orders_of (live_rows self rows) m ≡ orders_of rows m }
    ensures due { (self m : ℕ) (rows : List RunRow) → due_pairs (live_rows self rows) m ≡ due_pairs rows m }
{}
