//! What a host has to say to the other participants of the runs that it leads.
ghost use Rattle.std.specs.Prelude.{◌≡◌, ◌≤◌, IfOk};
ghost use Rattle.ps_time.specs.declared.moment.TheConstants.{MAX_MOMENT};
ghost use Rattle.host_model.specs.Orders.{orders};

use host_book::book::HostBook;
use host_draft::draft::Draft;
use host_model::config::Config;
use host_model::order::{Order, OrderBody};
use lead_orders::listing;
use ps_time::items::Items;
use ps_time::memory::Memory;
use ps_time::moment::Moment;
use std::alloc::Global;

/// The orders at a clock, in seconds since 1970 UTC: by key, then by place, then in the order of their kinds, the first 64.
/// The book settles as it is read, and stays as it is; rows that aren't live by the clock aren't looked at.
pub fn orders(
    alloc: Global,
    config: &Config,
    book: &HostBook,
    clock: Moment,
) -> Result<Items<Order>, Memory>
    requires clock { clock ≤ MAX_MOMENT }
    ensures { IfOk result (λ list. list ≡ orders book.now.book clock) }
{
    let _known = book.rows();
    let moment = book.moment().max(clock);
    let draft = Draft::new(alloc, book, &config.limits, moment)?;
    let live = book.live_by(alloc, moment)?;
    listing::orders(alloc, &draft, live.as_slice())
}

/// An order once more, as it is said again.
pub fn copy_order(alloc: Global, order: &Order) -> Result<Order, Memory>
    ensures { IfOk result (λ made. made ≡ order.now) }
{
    let to = order.to.copy(alloc)?;
    Ok(Order {
        key: order.key,
        place: order.place,
        to,
        body: copy_body(alloc, &order.body)?,
    })
}

fn copy_body(alloc: Global, body: &OrderBody) -> Result<OrderBody, Memory>
    ensures { IfOk result (λ made. made ≡ body.now) }
{
    match body {
        OrderBody::Free(question) => Ok(OrderBody::Free(question.copy(alloc)?)),
        OrderBody::Propose(proposal) => Ok(OrderBody::Propose(proposal.copy(alloc)?)),
        OrderBody::Confirm => Ok(OrderBody::Confirm),
        OrderBody::Cancel => Ok(OrderBody::Cancel),
        OrderBody::Material(text) => Ok(OrderBody::Material(text.copy(alloc)?)),
        OrderBody::Result => Ok(OrderBody::Result),
    }
}
