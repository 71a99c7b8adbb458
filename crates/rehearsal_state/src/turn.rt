//! What a host has to say after a turn.
ghost use Rattle.std.specs.Option.{option_copied};
ghost use Rattle.std.specs.Prelude.{◌++◌, ◌∷◌, ◌≡◌, ◌<◌, ◌≤◌, [], All, List, IfOk, OnOk, length, true};
ghost use Rattle.ps_time.specs.declared.moment.TheConstants.{MAX_MOMENT};
ghost use Rattle.host_model.specs.declared.input.Input.TheVariants.{Turn as AsTurn};
ghost use Rattle.host_model.specs.Orders.{orders as all_orders};
ghost use Rattle.api_peer.specs.Ordered.{IsOrder};
ghost use Rattle.rehearsal_script.specs.declared.script.ScriptHost.{ScriptHost};
ghost use Rattle.rehearsal_model.specs.Moves.{Move.Turns, is_of, is_untold, message_of, same_key, same_kind, sent_by, tells};
ghost use Rattle.rehearsal_model.specs.Reaching.{IsScriptPeer};
ghost use Rattle.rehearsal_model.specs.Simulations.{Action.Does, as_read, outcome_at, config_of, simulation_after, held_at};
ghost use Rattle.rehearsal_state.specs.Moved.{sent_of, with_messages};
ghost use Rattle.rehearsal_state.specs.Ready.{IsReady};

use crate::message::Message;
use crate::rehearsal::Rehearsal;
use api_peer::bounds_law::law_orders;
use api_peer::order::send_order;
use host_model::config::Config;
use host_model::input::Input;
use host_model::order::{Order, OrderBody};
use host_queries::orders::orders;
use ps_time::items::Items;
use ps_time::key::RunKey;
use ps_time::memory::Memory;
use ps_time::moment::Moment;
use rehearsal_model::outcome::StepOutcome;
use simulated_host::simulated::SimulatedHost;
use std::alloc::Global;

fn same_key(a: RunKey, b: RunKey) -> bool
    ensures { result ≡ same_key a b }
{
    a.lead == b.lead && a.task == b.task && a.number == b.number && a.attempt == b.attempt
}

fn same_kind(a: &OrderBody, b: &OrderBody) -> bool
    ensures { result ≡ same_kind a.now b.now }
{
    match (a, b) {
        (OrderBody::Free(_), OrderBody::Free(_)) => true,
        (OrderBody::Propose(_), OrderBody::Propose(_)) => true,
        (OrderBody::Confirm, OrderBody::Confirm) => true,
        (OrderBody::Cancel, OrderBody::Cancel) => true,
        (OrderBody::Material(_), OrderBody::Material(_)) => true,
        (OrderBody::Result, OrderBody::Result) => true,
        _ => false,
    }
}

/// Whether the message is this order, or the reply to it.
fn is_of(order: &Order, message: &Message) -> bool
    ensures { result ≡ is_of order.now message.now }
{
    let sent = &message.order;
    same_key(order.key, sent.key) && order.place == sent.place && same_kind(&order.body, &sent.body)
}

fn tells(order: &Order, message: Option<&Message>) -> bool
    ensures { result ≡ tells order.now (option_copied message.entry) }
{
    match message {
        Some(message) => is_of(order, message),
        None => false,
    }
}

/// Whether neither the order nor the reply to it is in flight.
fn is_untold(now: &Rehearsal, order: &Order) -> bool
    ensures { result ≡ is_untold (as_read now.now) order.now }
{
    for number in now.flying() {
        if tells(order, now.message(*number)) {
            return false;
        }
    }
    true
}

/// The order as a message of the host with this configuration; none where it has no such peer.
fn message_of(alloc: Global, config: &Config, order: Order) -> Result<Option<Message>, Memory>
    requires order { IsOrder order.body }
    requires peers { All IsScriptPeer config.now.peers }
    ensures { IfOk result (λ made. made ≡ message_of config.now order) }
{
    let asker = config.number;
    match send_order(alloc, config, &order) {
        Ok(Some(sent)) => {
            let asked = sent.asked;
            let bytes = sent.into_bytes();
            Ok(Some(Message::ordered(asker, asked, order, bytes)))
        }
        Ok(None) => {
            drop(order);
            Ok(None)
        }
        Err(fault) => {
            drop(order);
            Err(fault)
        }
    }
}

// One more order, where it is to be said.
fn add_message(
    alloc: Global,
    messages: &mut Vec<Message>,
    now: &Rehearsal,
    config: &Config,
    order: Order,
) -> Result<(), Memory>
    requires order { IsOrder order.body }
    requires peers { All IsScriptPeer config.now.peers }
    ensures { OnOk result (messages.new.items ≡ messages.old.items ++ sent_of (as_read now.now) config.now (order ∷ [])) }
{
    if !is_untold(now, &order) {
        drop(order);
        return Ok(());
    }
    match message_of(alloc, config, order)? {
        Some(position) => {
            messages.push(position)?;
            Ok(())
        }
        None => Ok(()),
    }
}

fn messages_of(
    alloc: Global,
    now: &Rehearsal,
    config: &Config,
    orders: Items<Order>,
) -> Result<Vec<Message>, Memory>
    requires orders { All (λ order. IsOrder order.body) orders }
    requires peers { All IsScriptPeer config.now.peers }
    ensures { IfOk result (λ messages. messages.items ≡ sent_of (as_read now.now) config.now orders) }
{
    let mut messages = Vec::new(alloc);
    for order in orders.into_vec() {
        add_message(alloc, &mut messages, now, config, order)?;
    }
    Ok(messages)
}

// The orders of a host, each of which can be sent.
fn orders_at(
    alloc: Global,
    held_host: &SimulatedHost,
    clock: Moment,
) -> Result<Items<Order>, Memory>
    requires ready { held_host.now.ready ≡ true }
    requires clock { clock ≤ MAX_MOMENT }
    ensures orders { IfOk result (λ list. list ≡ all_orders held_host.now.state.book clock) }
    ensures sent { IfOk result (All (λ order. IsOrder order.body)) }
{
    law_orders();
    let book = held_host.book();
    let _known = book.rows();
    orders(alloc, held_host.config(), book, clock)
}

/// What the host at a place sends at a clock.
fn messages_at(
    alloc: Global,
    now: &Rehearsal,
    place: usize,
    clock: Moment,
) -> Result<Vec<Message>, Memory>
    requires place { place < length now.now.held_hosts }
    requires ready { (held_at now.now place).ready ≡ true }
    requires clock { clock ≤ MAX_MOMENT }
    requires peers { All IsScriptPeer (config_of now.now place).peers }
    ensures { IfOk result (λ messages. messages.items ≡ sent_by (as_read now.now) (held_at now.now place).state clock) }
{
    let held_host = now.held_host(place);
    let orders = orders_at(alloc, held_host, clock)?;
    messages_of(alloc, now, held_host.config(), orders)
}

fn send_orders(
    alloc: Global,
    now: &mut Rehearsal,
    place: usize,
    clock: Moment,
) -> Result<(), Memory>
    requires place { place < length now.old.held_hosts }
    requires ready { (held_at now.old place).ready ≡ true }
    requires clock { clock ≤ MAX_MOMENT }
    requires peers { All IsScriptPeer (config_of now.old place).peers }
    ensures { OnOk result (now.new ≡ with_messages now.old (sent_by (as_read now.old) (held_at now.old place).state clock)) }
{
    let messages = messages_at(alloc, now, place, clock)?;
    now.send_all(messages)
}

/// A turn of the host at a place, at a clock in seconds since 1970 UTC, and what it sends then.
pub fn turn(
    alloc: Global,
    now: &mut Rehearsal,
    place: usize,
    clock: Moment,
) -> Result<StepOutcome, Memory>
    requires ready { IsReady now.old place clock }
    requires peers { All IsScriptPeer (config_of now.old place).peers }
    ensures outcome { IfOk result (λ outcome. outcome ≡ outcome_at now.old place clock AsTurn) }
    ensures simulation { (hosts : List ScriptHost) → OnOk result (now.new ≡ simulation_after hosts now.old (Does (Turns place clock))) }
{
    match now.step(alloc, place, clock, Input::Turn)? {
        StepOutcome::Answered(reply) => match send_orders(alloc, now, place, clock) {
            Ok(()) => Ok(StepOutcome::Answered(reply)),
            Err(fault) => {
                drop(reply);
                Err(fault)
            }
        },
        StepOutcome::Crashed => Ok(StepOutcome::Crashed),
        StepOutcome::Faulted => Ok(StepOutcome::Faulted),
    }
}
