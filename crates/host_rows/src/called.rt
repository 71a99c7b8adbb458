//! Which of the rows that wait are called: their start has come.
ghost use Rattle.std.specs.Prelude.{◌≡◌, OnOk};
ghost use Rattle.run_states.specs.Rows.{find_row};
ghost use Rattle.host_rows.specs.Called.{added_if, is_called_at, last_deadline, with_called};
ghost use Rattle.host_rows.specs.Deadlines.{due_keys};

use crate::deadlines::Deadlines;
use crate::live_keys::LiveKeys;
use crate::still::is_called;
use ps_time::key::RunKey;
use ps_time::memory::Memory;
use ps_time::moment::Moment;
use run_states::life::GRACE;
use run_states::rows::Rows;

/// Adds the keys of the rows that wait and whose start has come by the moment. They are among those whose deadline comes within
/// 16 s of it.
pub(crate) fn add_called(
    keys: &mut LiveKeys,
    deadlines: &Deadlines,
    rows: &Rows,
    moment: Moment,
) -> Result<(), Memory>
    ensures { OnOk result (keys.new.list ≡ with_called moment rows.now.list (due_keys (last_deadline moment) deadlines.now.list) keys.old.list) }
{
    let last = moment.saturating_add(GRACE + 1);
    for place in 0..deadlines.len() {
        let Some(key) = deadlines.due(place, last) else {
            return Ok(());
        };
        add_if_called(keys, rows, key, moment)?;
    }
    Ok(())
}

fn add_if_called(
    keys: &mut LiveKeys,
    rows: &Rows,
    key: RunKey,
    moment: Moment,
) -> Result<(), Memory>
    ensures { OnOk result (keys.new.list ≡ added_if (is_called_at moment (find_row rows.now.list key)) keys.old.list key) }
{
    if is_called_at(rows, key, moment) {
        keys.add(key)
    } else {
        Ok(())
    }
}

// Whether there is a row of the key that waits, and its start has come by the moment.
fn is_called_at(rows: &Rows, key: RunKey, moment: Moment) -> bool
    ensures { result ≡ is_called_at moment (find_row rows.now.list key) }
{
    match rows.find(key) {
        Some(row) => is_called(row, moment),
        None => false,
    }
}
