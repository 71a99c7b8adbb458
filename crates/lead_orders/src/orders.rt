//! What a lead has to say to another participant of one of its runs.
ghost use Rattle.std.specs.Prelude.{◌≡◌, ◌+◌, IfOk, nat_le};
ghost use Rattle.std.specs.Option.{option_to_list};
ghost use Rattle.host_model.specs.Orders.{cancel_orders, confirm_orders, free_orders, is_before_end, is_past_end, material_orders, propose_orders, result_orders};

use host_model::order::OrderBody;
use plugin_core::test_spec::TestSpec;
use ps_time::interval::Interval;
use ps_time::memory::Memory;
use ps_time::moment::Moment;
use run_states::answer::Other;
use run_states::content::proposal_of;
use run_states::proposal::Question;
use run_states::row::RunRow;
use std::alloc::Global;

/// While the row isn't closed and the answer isn't heard: which starts are free?
pub fn free_order(alloc: Global, row: &RunRow, other: &Other) -> Result<Option<OrderBody>, Memory>
    ensures { IfOk result (λ body. option_to_list body ≡ free_orders row.now other.now row.now.question) }
{
    let Some(window) = row.question else {
        return Ok(None);
    };
    if row.closed.is_some() || other.free.is_some() {
        return Ok(None);
    }
    let question = Question {
        key: row.key,
        test: row.test.copy(alloc)?,
        priority: row.priority,
        window,
    };
    Ok(Some(OrderBody::Free(question)))
}

/// While the run is accepted here, neither confirmed nor closed, and its acceptance there isn't heard: take part.
pub fn propose_order(
    alloc: Global,
    row: &RunRow,
    other: &Other,
) -> Result<Option<OrderBody>, Memory>
    ensures { IfOk result (λ body. option_to_list body ≡ propose_orders row.now other.now) }
{
    if row.is_booked() && row.confirmed.is_none() && !other.accepted {
        let proposal = proposal_of(alloc, row)?;
        return Ok(Some(OrderBody::Propose(proposal)));
    }
    Ok(None)
}

/// While the run is confirmed and not closed, before its end, and not acknowledged: every participant has accepted.
pub fn confirm_order(row: &RunRow, other: &Other, moment: Moment) -> Option<OrderBody>
    ensures { option_to_list result ≡ confirm_orders moment row.now other.now }
{
    if row.confirmed.is_some()
        && row.closed.is_none()
        && !other.confirm_told
        && is_before_end(row.interval, moment)
    {
        Some(OrderBody::Confirm)
    } else {
        None
    }
}

/// While the run is closed, before its end, and accepted there, but not acknowledged: the run won't be.
pub fn cancel_order(row: &RunRow, other: &Other, moment: Moment) -> Option<OrderBody>
    ensures { option_to_list result ≡ cancel_orders moment row.now other.now }
{
    if row.closed.is_some()
        && other.accepted
        && !other.cancel_told
        && is_before_end(row.interval, moment)
    {
        Some(OrderBody::Cancel)
    } else {
        None
    }
}

/// While the run is active, from the test's dawdle after the start on, and not acknowledged: the test's material.
pub fn material_order(
    alloc: Global,
    row: &RunRow,
    other: &Other,
    moment: Moment,
) -> Result<Option<OrderBody>, Memory>
    ensures { IfOk result (λ body. option_to_list body ≡ material_orders moment row.now other.now row.now.test row.now.started) }
{
    let TestSpec::Simplestream {
        test_material,
        dawdle,
        ..
    } = &row.test
    else {
        return Ok(None);
    };
    let Some(started) = row.started else {
        return Ok(None);
    };
    if row.is_active() && !other.material_told && is_due(started, *dawdle, moment) {
        let material = test_material.copy(alloc)?;
        return Ok(Some(OrderBody::Material(material)));
    }
    Ok(None)
}

/// While the run is ended and not merged, from its interval's end on, and the result isn't heard: how did it go?
pub fn result_order(row: &RunRow, other: &Other, moment: Moment) -> Option<OrderBody>
    ensures { option_to_list result ≡ result_orders moment row.now other.now }
{
    if row.ended.is_some()
        && row.merged.is_none()
        && other.heard.is_none()
        && is_past_end(row.interval, moment)
    {
        Some(OrderBody::Result)
    } else {
        None
    }
}

// So many seconds have passed since the start.
fn is_due(started: Moment, after: u64, moment: Moment) -> bool
    ensures { result ≡ nat_le (started + after) moment }
{
    started <= moment && after <= moment - started
}

fn is_before_end(interval: Option<Interval>, moment: Moment) -> bool
    ensures { result ≡ is_before_end moment interval }
{
    match interval {
        Some(interval) => moment < interval.end,
        None => false,
    }
}

fn is_past_end(interval: Option<Interval>, moment: Moment) -> bool
    ensures { result ≡ is_past_end moment interval }
{
    match interval {
        Some(interval) => interval.end <= moment,
        None => false,
    }
}
