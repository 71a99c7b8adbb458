//! Which archives of merged runs are due.
ghost use Rattle.std.specs.Prelude.{◌≡◌, ◌≤◌, ◌++◌, ◌∷◌, [], All, IfOk, IfSome, OnOk, length, slice_get};
ghost use Rattle.std.specs.Option.{option_copied};
ghost use Rattle.host_book.specs.Ready.{most_archives};
ghost use Rattle.host_model.specs.Archives.{due, due_from_index};
ghost use Rattle.host_queries.specs.DueKeys.{HasFewArchives, due_of_keys, found_due};

use archive_retry::retry::due as is_due;
use archive_retry::state::ArchiveState;
use host_book::book::HostBook;
use ps_lists::tiered_lent::Lent;
use ps_time::items::Items;
use ps_time::key::RunKey;
use ps_time::memory::Memory;
use ps_time::moment::Moment;
use run_states::row::RunRow;
use run_states::rows::Rows;
use std::alloc::Global;

/// Every run and archive that is due at a clock, in seconds since 1970 UTC: by key, then by the archive's position among
/// those of its task, from 0 on. Rows that aren't live aren't looked at.
pub fn due(alloc: Global, book: &HostBook, clock: Moment) -> Result<Items<(RunKey, u8)>, Memory>
    ensures { IfOk result (λ list. list ≡ due book.now.book clock) }
{
    let moment = book.moment().max(clock);
    due_of_keys(alloc, book.rows(), book.live(), moment)
}

/// The first of them. Takes no memory.
pub fn first_due(book: &HostBook, clock: Moment) -> Option<(RunKey, u8)>
    ensures { result ≡ slice_get (due book.now.book clock) 0 }
{
    let moment = book.moment().max(clock);
    first_of_keys(book.rows(), book.live(), moment)
}

// What is due of the rows that the keys name, key by key.
fn due_of_keys(
    alloc: Global,
    rows: &Rows,
    keys: Lent<'_, RunKey>,
    moment: Moment,
) -> Result<Items<(RunKey, u8)>, Memory>
    requires { All HasFewArchives rows.now.list }
    ensures { IfOk result (λ list. list ≡ due_of_keys moment keys.entry rows.now.list) }
{
    let mut due = Items::new(alloc);
    for key in keys {
        add_found(&mut due, rows.find(*key), moment)?;
    }
    Ok(due)
}

// What is due of a row, if there is one.
fn add_found(
    due: &mut Items<(RunKey, u8)>,
    row: Option<&RunRow>,
    moment: Moment,
) -> Result<(), Memory>
    requires { IfSome (option_copied row) HasFewArchives }
    ensures { OnOk result (due.new ≡ due.old ++ found_due moment (option_copied row.entry)) }
{
    match row {
        Some(row) => add_each(due, row.key, row.archives.as_slice(), moment),
        None => Ok(()),
    }
}

fn add_each(
    due: &mut Items<(RunKey, u8)>,
    key: RunKey,
    states: &[ArchiveState],
    moment: Moment,
) -> Result<(), Memory>
    requires { length states.now ≤ most_archives }
    ensures { OnOk result (due.new ≡ due.old ++ due_from_index key moment 0 states.now) }
{
    let mut index: u8 = 0;
    for state in states {
        add_one(due, (key, index), state, moment)?;
        index += 1;
    }
    Ok(())
}

// An archive, where it is due.
fn add_one(
    due: &mut Items<(RunKey, u8)>,
    place: (RunKey, u8),
    state: &ArchiveState,
    moment: Moment,
) -> Result<(), Memory>
    ensures { OnOk result (due.new ≡ due.old ++ due_from_index place.0 moment place.1 (state.now ∷ [])) }
{
    if is_due(state, moment) {
        due.push(place)
    } else {
        Ok(())
    }
}

// The first that is due of the rows that the keys name.
fn first_of_keys(rows: &Rows, keys: Lent<'_, RunKey>, moment: Moment) -> Option<(RunKey, u8)>
    requires { All HasFewArchives rows.now.list }
    ensures { result ≡ slice_get (due_of_keys moment keys.entry rows.now.list) 0 }
{
    for key in keys {
        if let Some(first) = first_found(rows.find(*key), moment) {
            return Some(first);
        }
    }
    None
}

fn first_found(row: Option<&RunRow>, moment: Moment) -> Option<(RunKey, u8)>
    requires { IfSome (option_copied row) HasFewArchives }
    ensures { result ≡ slice_get (found_due moment (option_copied row.entry)) 0 }
{
    match row {
        Some(row) => first_of(row.key, row.archives.as_slice(), moment),
        None => None,
    }
}

fn first_of(key: RunKey, states: &[ArchiveState], moment: Moment) -> Option<(RunKey, u8)>
    requires { length states.now ≤ most_archives }
    ensures { result ≡ slice_get (due_from_index key moment 0 states.now) 0 }
{
    let mut index: u8 = 0;
    for state in states {
        if is_due(state, moment) {
            return Some((key, index));
        }
        index += 1;
    }
    None
}
