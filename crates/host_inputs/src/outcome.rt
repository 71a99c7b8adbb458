//! Outcomes as they are made.
ghost use Rattle.std.specs.Prelude.{◌≡◌, ◌∷◌, [], IfOk};
ghost use Rattle.std.specs.Option.{option_to_list};
ghost use Rattle.host_model.specs.Propose.{answered};

use host_model::change::Change;
use host_model::reply::{Outcome, Reply};
use ps_time::items::Items;
use ps_time::memory::Memory;
use std::alloc::Global;

// A reply without changes.
pub(crate) fn answered(alloc: Global, reply: Reply) -> Outcome
    ensures { result ≡ answered reply }
{
    Outcome {
        reply,
        list: Items::new(alloc),
    }
}

// One change.
pub(crate) fn one(alloc: Global, change: Change) -> Result<Items<Change>, Memory>
    ensures { IfOk result (λ list. list ≡ change ∷ []) }
{
    let mut list = Items::new(alloc);
    list.push(change)?;
    Ok(list)
}

// The change, if there is one.
pub(crate) fn listed(alloc: Global, change: Option<Change>) -> Result<Items<Change>, Memory>
    ensures { IfOk result (λ list. list ≡ option_to_list change) }
{
    let mut list = Items::new(alloc);
    if let Some(change) = change {
        list.push(change)?;
    }
    Ok(list)
}
