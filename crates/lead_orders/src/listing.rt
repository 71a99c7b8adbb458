//! All that a lead has to say to the other participants of its runs, in order.
ghost use Rattle.std.specs.Prelude.{◌≡◌, ◌≤◌, ◌<◌, ◌∷◌, [], All, IfOk, IfSome, OnOk, length, map};
ghost use Rattle.std.specs.Option.{option_copied, option_to_list};
ghost use Rattle.run_states.specs.Rows.{IsAscendingRows};
ghost use Rattle.host_model.specs.Orders.{bodies_to, order_to, orders_from, orders_of, row_orders};
ghost use Rattle.lead_orders.specs.Listing.{AreAscending, HasFewOthers, HaveOrders, found_orders, orders_at, with_more};

use crate::hear::name_at;
use crate::orders::{
    cancel_order, confirm_order, free_order, material_order, propose_order, result_order,
};
use host_model::order::{Order, OrderBody};
use part_core::reading::Reading;
use ps_time::items::Items;
use ps_time::key::RunKey;
use ps_time::memory::Memory;
use ps_time::moment::Moment;
use run_states::answer::Other;
use run_states::row::RunRow;
use std::alloc::Global;

/// How many orders one listing has at most.
pub const MOST_ORDERS: usize = 64;

/// The orders of the host's runs by key, then by place, then in the order of their kinds: the first 64. The keys, which
/// ascend, are those of all rows that may have orders, and maybe others; no other row is looked at.
#[tactic(auto, using(crate::proofs::ListingLemmas::listing_of))]
pub fn orders<R: Reading>(alloc: Global, book: &R, keys: &[RunKey]) -> Result<Items<Order>, Memory>
    requires rows { IsAscendingRows (R.seen book.now) }
    requires ascending { AreAscending keys.now }
    requires named { HaveOrders (R.at book.now) keys.now (R.seen book.now) }
    requires few { All HasFewOthers (R.seen book.now) }
    ensures { IfOk result (λ orders. orders ≡ orders_of (R.seen book.now) (R.at book.now)) }
{
    orders_at(alloc, book, keys)
}

#[tactic(auto, using(crate::proofs::ListingLemmas::full))]
fn orders_at<R: Reading>(alloc: Global, book: &R, keys: &[RunKey]) -> Result<Items<Order>, Memory>
    requires { All HasFewOthers (R.seen book.now) }
    ensures { IfOk result (λ orders. orders ≡ orders_at (R.at book.now) keys.now (R.seen book.now)) }
{
    let moment = book.moment();
    let mut orders = Items::new(alloc);
    for key in keys {
        if orders.len() == MOST_ORDERS {
            return Ok(orders);
        }
        add_found(alloc, &mut orders, book.find(*key), moment)?;
    }
    Ok(orders)
}

// The orders of a row, if there is one.
#[tactic(auto, using(crate::proofs::ListingLemmas::no_more))]
fn add_found(
    alloc: Global,
    orders: &mut Items<Order>,
    row: Option<&RunRow>,
    moment: Moment,
) -> Result<(), Memory>
    requires places { length orders.old ≤ 64 }
    requires few { IfSome (option_copied row) HasFewOthers }
    ensures value { OnOk result (orders.new ≡ with_more orders.old (found_orders moment (option_copied row.entry))) }
    ensures places { OnOk result (length orders.new ≤ 64) }
{
    match row {
        Some(row) => add_row(alloc, orders, row, moment),
        None => Ok(()),
    }
}

/// The orders of one row, behind others, as far as the list has places.
#[tactic(auto, using(crate::proofs::ListingLemmas::no_more))]
pub fn add_row(
    alloc: Global,
    orders: &mut Items<Order>,
    row: &RunRow,
    moment: Moment,
) -> Result<(), Memory>
    requires places { length orders.old ≤ 64 }
    requires few { HasFewOthers row.now }
    ensures value { OnOk result (orders.new ≡ with_more orders.old (row_orders moment row.now)) }
    ensures places { OnOk result (length orders.new ≤ 64) }
{
    if row.asked.is_none() {
        return Ok(());
    }
    add_others(alloc, orders, row, moment)
}

fn add_others(
    alloc: Global,
    orders: &mut Items<Order>,
    row: &RunRow,
    moment: Moment,
) -> Result<(), Memory>
    requires places { length orders.old ≤ 64 }
    requires few { HasFewOthers row.now }
    ensures value { OnOk result (orders.new ≡ with_more orders.old (orders_from moment row.now 1 row.now.others)) }
    ensures places { OnOk result (length orders.new ≤ 64) }
{
    let mut place: u8 = 1;
    for other in row.others.as_slice() {
        add_all(alloc, orders, row, place, other, moment)?;
        place += 1;
    }
    Ok(())
}

// All that there is to say to one participant.
#[tactic(auto, using(crate::proofs::ListingLemmas::six_kinds))]
fn add_all(
    alloc: Global,
    orders: &mut Items<Order>,
    row: &RunRow,
    place: u8,
    other: &Other,
    moment: Moment,
) -> Result<(), Memory>
    requires places { length orders.old ≤ 64 }
    ensures value { OnOk result (orders.new ≡ with_more orders.old (map (order_to row.now place) (bodies_to moment row.now other.now))) }
    ensures places { OnOk result (length orders.new ≤ 64) }
{
    let body = free_order(alloc, row, other)?;
    add(alloc, orders, row, place, body)?;
    let body = propose_order(alloc, row, other)?;
    add(alloc, orders, row, place, body)?;
    add(alloc, orders, row, place, confirm_order(row, other, moment))?;
    add(alloc, orders, row, place, cancel_order(row, other, moment))?;
    let body = material_order(alloc, row, other, moment)?;
    add(alloc, orders, row, place, body)?;
    add(alloc, orders, row, place, result_order(row, other, moment))
}

// The order, if there is one, where the list has a place for it.
#[tactic(auto, using(crate::proofs::ListingLemmas::no_more))]
fn add(
    alloc: Global,
    orders: &mut Items<Order>,
    row: &RunRow,
    place: u8,
    body: Option<OrderBody>,
) -> Result<(), Memory>
    requires places { length orders.old ≤ 64 }
    ensures value { OnOk result (orders.new ≡ with_more orders.old (map (order_to row.now place) (option_to_list body))) }
    ensures places { OnOk result (length orders.new ≤ 64) }
{
    match body {
        Some(body) => add_one(alloc, orders, row, place, body),
        None => Ok(()),
    }
}

#[tactic(auto, using(crate::proofs::ListingLemmas::full, crate::proofs::ListingLemmas::one_more))]
fn add_one(
    alloc: Global,
    orders: &mut Items<Order>,
    row: &RunRow,
    place: u8,
    body: OrderBody,
) -> Result<(), Memory>
    requires places { length orders.old ≤ 64 }
    ensures value { OnOk result (orders.new ≡ with_more orders.old (order_to row.now place body ∷ [])) }
    ensures places { OnOk result (length orders.new ≤ 64) }
{
    if orders.len() == MOST_ORDERS {
        drop(body);
        return Ok(());
    }
    let order = order_to(alloc, row, place, body)?;
    orders.push(order)
}

fn order_to(alloc: Global, row: &RunRow, place: u8, body: OrderBody) -> Result<Order, Memory>
    ensures { IfOk result (λ order. order ≡ order_to row.now place body) }
{
    let to = name_at(alloc, row, place)?;
    Ok(Order {
        key: row.key,
        place,
        to,
        body,
    })
}
