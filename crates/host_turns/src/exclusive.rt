//! Which keys are of exclusive runs: no others hinder a run that isn't exclusive itself.
ghost use Rattle.std.specs.Prelude.{◌≡◌, IfOk};
ghost use Rattle.std.specs.Option.{option_copied};
ghost use Rattle.host_turns.specs.Turns.{exclusive_keys, hindering_keys, is_exclusive_at};

use plugin_core::test_spec::class_of;
use ps_time::class::{Class, classes_conflict};
use ps_time::key::RunKey;
use ps_time::memory::Memory;
use run_states::row::RunRow;
use run_states::rows::Rows;
use std::alloc::Global;

/// Those of these keys that are of exclusive runs.
pub(crate) fn exclusive_keys(
    alloc: Global,
    rows: &Rows,
    keys: &[RunKey],
) -> Result<Vec<RunKey>, Memory>
    ensures { IfOk result (λ made. made.items ≡ exclusive_keys rows.now.list keys.now) }
{
    let mut made = Vec::new(alloc);
    for key in keys {
        if is_exclusive_at(rows.find(*key)) {
            made.push(*key)?;
        }
    }
    Ok(made)
}

fn is_exclusive_at(row: Option<&RunRow>) -> bool
    ensures { result ≡ is_exclusive_at (option_copied row.entry) }
{
    match row {
        Some(row) => classes_conflict(class_of(&row.test), Class::Normal),
        None => false,
    }
}

/// The keys among which a start of this class looks for a run that hinders it: of all live runs, and of the exclusive ones of these.
pub(crate) fn hindering_keys<'a>(
    class: Class,
    live: &'a [RunKey],
    exclusive: &'a [RunKey],
) -> &'a [RunKey]
    ensures { result.now ≡ hindering_keys class live.now exclusive.now }
{
    match class {
        Class::Exclusive => live,
        _ => exclusive,
    }
}
