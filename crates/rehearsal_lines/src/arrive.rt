//! Messages of a rehearsal that arrive, arrive again, or are lost.
ghost use Rattle.std.specs.Prelude.{◌≡◌, ◌-◌, ◌++◌, ◌∷◌, ◌<◌, ◌≤◌, [], IfOk, List, None, OnOk, Some, codes, if◌then◌else◌, length};
ghost use Rattle.std.specs.Fmt.{decimal};
ghost use Rattle.ps_time.specs.declared.moment.TheConstants.{MAX_MOMENT};
ghost use Rattle.host_model.specs.declared.reply.Reply.{Reply as AReply};
ghost use Rattle.rehearsal_script.specs.declared.script.ScriptHost.{ScriptHost};
ghost use Rattle.world_law.specs.Events.{brings};
ghost use Rattle.world_law.specs.World.{Message};
ghost use Rattle.rehearsal_report.specs.Line.{line_text, sent_text};
ghost use Rattle.api_peer.specs.Replied.{IsReplyTo};
ghost use Rattle.api_reply.specs.Bounds.{IsReplyShown};
ghost use Rattle.rehearsal_model.specs.Hosts.{name_numbered};
ghost use Rattle.rehearsal_model.specs.Moves.{Move.Arrives, Move.Lost, Move.Rests, receiver};
ghost use Rattle.rehearsal_model.specs.Simulations.{Action.Does, Action.Hears, as_read, outcome_at, flies, has_come, message_position, simulation_after, unless_broken};
ghost use Rattle.rehearsal_model.specs.Seen.{landed, message};
ghost use Rattle.rehearsal_model.specs.Telling.{arrival_said, message_said};
ghost use Rattle.rehearsal_model.specs.declared.outcome.StepOutcome.TheVariants.{Answered as AsAnswered};
ghost use Rattle.rehearsal_state.specs.Moved.{with_messages, with_step};
ghost use Rattle.rehearsal_lines.specs.Arriving.{arrival_of};
ghost use Rattle.rehearsal_lines.specs.Playing.{IsPlaying};

use crate::ask::{CRASHED, DISK_FAULT, step_shown};
use api_peer::widths::reply_widths;
use api_reply::respond::reply_status;
use host_model::reply::Reply;
use ps_time::memory::Memory;
use ps_time::moment::Moment;
use rehearsal_report::line::add_said;
use rehearsal_report::message::{add_sent, begin_status, end_line};
use rehearsal_report::report::ReportText;
use rehearsal_script::script::ScriptHost;
use rehearsal_state::hosts::{name_of, place_of};
use rehearsal_state::outcome::StepOutcome;
use rehearsal_state::rehearsal::Rehearsal;
use rehearsal_state::tell::add_messages;
use std::alloc::Global;

/// What came of a message that arrived.
#[derive(Clone, Copy)]
pub enum Arrival {
    /// There is none of its number.
    Missing,
    /// The step that it brought stopped.
    Crashed,
    /// A call of a disk failed as an order came, so that the host which was asked answers nothing but 503 to the one that asked.
    Unanswered { asker: u16, asked: u16 },
    /// A call of a disk failed as a reply came.
    Faulted,
    /// An order was replied to, with this status.
    Replied(u16),
    /// A reply was heard.
    Heard,
}

/// A message comes to the host that it goes to, which takes a step.
fn bring(
    alloc: Global,
    hosts: &[ScriptHost],
    now: &mut Rehearsal,
    position: u64,
    clock: Moment,
) -> Result<StepOutcome, Memory>
    requires playing { IsPlaying hosts.now now.old }
    requires sent { position - 1 < length now.old.messages }
    requires clock { clock ≤ MAX_MOMENT }
    ensures outcome { (l : Message) → message (as_read now.old) position ≡ Some l → IfOk result (λ outcome. outcome ≡ outcome_at now.old (receiver hosts.now l) clock (brings l l.reply)) }
    ensures shown { IfOk result (λ outcome. (reply : AReply) → outcome ≡ AsAnswered reply → IsReplyShown reply) }
    ensures simulation { (l : Message) → message (as_read now.old) position ≡ Some l
        → OnOk result (now.new ≡ with_step (record now.old { flying = landed position now.old.flying }) (receiver hosts.now l) clock (brings l l.reply)) }
{
    let place = place_of(hosts, now.message_at(position).goes_to());
    let input = now.brings(alloc, position, place, clock)?;
    now.land(position);
    step_shown(alloc, now, place, clock, input)
}

/// An order was replied to by the host at a place: the reply is sent.
fn send_back(
    alloc: Global,
    now: &mut Rehearsal,
    position: u64,
    place: usize,
    reply: Reply,
) -> Result<(), Memory>
    requires sent { position - 1 < length now.old.messages }
    requires place { place < length now.old.held_hosts }
    requires shown { IsReplyShown reply }
    requires told { (l : Message) → message (as_read now.old) position ≡ Some l → IsReplyTo l.order.body reply }
    ensures { (l : Message) → message (as_read now.old) position ≡ Some l → OnOk result (now.new ≡ with_messages now.old (record l { reply = Some reply } ∷ [])) }
{
    let config = now.held_host(place).config();
    let sent = now.message_at(position).answered(alloc, config, reply)?;
    now.send(sent)
}

// An order comes.
fn take_order(
    alloc: Global,
    hosts: &[ScriptHost],
    now: &mut Rehearsal,
    position: u64,
    clock: Moment,
) -> Result<Arrival, Memory>
    requires playing { IsPlaying hosts.now now.old }
    requires sent { position - 1 < length now.old.messages }
    requires clock { clock ≤ MAX_MOMENT }
    requires order { (l : Message) → message (as_read now.old) position ≡ Some l → l.reply ≡ None }
    ensures arrival { IfOk result (λ arrival. arrival ≡ arrival_of hosts.now now.old clock (message (as_read now.old) position)) }
    ensures simulation { OnOk result (now.new ≡ simulation_after hosts.now now.old (Does (Arrives position clock))) }
{
    let message = now.message_at(position);
    let (asker, asked) = (message.asker, message.asked);
    let place = place_of(hosts, message.goes_to());
    match bring(alloc, hosts, now, position, clock)? {
        StepOutcome::Crashed => Ok(Arrival::Crashed),
        StepOutcome::Faulted => {
            now.send_broken()?;
            Ok(Arrival::Unanswered { asker, asked })
        }
        StepOutcome::Answered(reply) => {
            reply_widths(&reply);
            let status = reply_status(&reply);
            send_back(alloc, now, position, place, reply)?;
            Ok(Arrival::Replied(status))
        }
    }
}

// A reply comes.
fn take_reply(
    alloc: Global,
    hosts: &[ScriptHost],
    now: &mut Rehearsal,
    position: u64,
    clock: Moment,
) -> Result<Arrival, Memory>
    requires playing { IsPlaying hosts.now now.old }
    requires sent { position - 1 < length now.old.messages }
    requires clock { clock ≤ MAX_MOMENT }
    requires reply { (l : Message) → message (as_read now.old) position ≡ Some l → (told : AReply) × (l.reply ≡ Some told) }
    ensures arrival { IfOk result (λ arrival. arrival ≡ arrival_of hosts.now now.old clock (message (as_read now.old) position)) }
    ensures simulation { OnOk result (now.new ≡ simulation_after hosts.now now.old (Does (Arrives position clock))) }
{
    let _message = now.message_at(position);
    match bring(alloc, hosts, now, position, clock)? {
        StepOutcome::Crashed => Ok(Arrival::Crashed),
        StepOutcome::Faulted => Ok(Arrival::Faulted),
        StepOutcome::Answered(reply) => {
            drop(reply);
            Ok(Arrival::Heard)
        }
    }
}

/// The message at a place among those of the hosts, from 1 on, arrives at a clock, in seconds since 1970 UTC: an order is answered, a
/// reply is heard. Nothing is reported.
pub fn receive(
    alloc: Global,
    hosts: &[ScriptHost],
    now: &mut Rehearsal,
    position: u64,
    clock: Moment,
) -> Result<Arrival, Memory>
    requires playing { IsPlaying hosts.now now.old }
    requires clock { clock ≤ MAX_MOMENT }
    ensures arrival { IfOk result (λ arrival. arrival ≡ arrival_of hosts.now now.old clock (message (as_read now.old) position)) }
    ensures simulation { OnOk result (now.new ≡ simulation_after hosts.now now.old (Does (Arrives position clock))) }
{
    match now.message(position) {
        None => {
            now.land(position);
            Ok(Arrival::Missing)
        }
        Some(message) => match &message.reply {
            None => take_order(alloc, hosts, now, position, clock),
            Some(_) => take_reply(alloc, hosts, now, position, clock),
        },
    }
}

// An answer that a fault took the place of is reported.
fn add_unanswered(
    hosts: &[ScriptHost],
    number: u64,
    asker: u16,
    asked: u16,
    line: u64,
    report: &mut ReportText,
) -> Result<(), Memory>
    ensures { OnOk result (report.new ≡ report.old ++ line_text line (decimal 503 ++ sent_text number (name_numbered hosts.now asked) (name_numbered hosts.now asker) (codes "reply"))) }
{
    begin_status(report, line, 503)?;
    let (from, to) = (name_of(hosts, asked), name_of(hosts, asker));
    add_sent(report, number, from, to, "reply")?;
    end_line(report)
}

/// The message at a place among those of the hosts, from 1 on, arrives at a clock, in seconds since 1970 UTC, and what comes of that is
/// reported.
pub fn arrive(
    alloc: Global,
    hosts: &[ScriptHost],
    now: &mut Rehearsal,
    position: u64,
    clock: Moment,
    line: u64,
    report: &mut ReportText,
) -> Result<(), Memory>
    requires playing { IsPlaying hosts.now now.old }
    requires clock { clock ≤ MAX_MOMENT }
    ensures report { OnOk result (report.new ≡ report.old ++ line_text line (arrival_said hosts.now now.old clock (message (as_read now.old) position))) }
    ensures simulation { OnOk result (now.new ≡ simulation_after hosts.now now.old (Does (Arrives position clock))) }
{
    let before = now.messages().len();
    let broken = now.count_broken();
    let number = now.next_number();
    match receive(alloc, hosts, now, position, clock)? {
        Arrival::Missing => add_said(report, line, "not in flight"),
        Arrival::Crashed => add_said(report, line, CRASHED),
        Arrival::Unanswered { asker, asked } => {
            add_unanswered(hosts, number, asker, asked, line, report)
        }
        Arrival::Faulted => add_said(report, line, DISK_FAULT),
        Arrival::Replied(status) => {
            begin_status(report, line, status)?;
            add_messages(report, hosts, now.messages(), before, broken)
        }
        Arrival::Heard => add_said(report, line, "heard"),
    }
}

/// The message of this number arrives, where it is in flight; an answer that a fault took the place of is heard.
pub fn deliver(
    alloc: Global,
    hosts: &[ScriptHost],
    now: &mut Rehearsal,
    number: u64,
    clock: Moment,
    line: u64,
    report: &mut ReportText,
) -> Result<(), Memory>
    requires playing { IsPlaying hosts.now now.old }
    requires clock { clock ≤ MAX_MOMENT }
    ensures report { OnOk result (report.new ≡ report.old ++ line_text line (if flies now.old number then message_said hosts.now now.old clock number else codes "not in flight")) }
    ensures simulation { OnOk result (now.new ≡ simulation_after hosts.now now.old (if flies now.old number then unless_broken now.old number (Hears number) (Does (Arrives (message_position now.old number) clock)) else Does Rests)) }
{
    if !now.flies(number) {
        return add_said(report, line, "not in flight");
    }
    if now.is_broken(number) {
        now.hear(number);
        return add_said(report, line, "heard");
    }
    let position = now.message_position(number);
    arrive(alloc, hosts, now, position, clock, line, report)
}

/// The message of this number arrives again, where it arrived or was lost.
pub fn repeat(
    alloc: Global,
    hosts: &[ScriptHost],
    now: &mut Rehearsal,
    number: u64,
    clock: Moment,
    line: u64,
    report: &mut ReportText,
) -> Result<(), Memory>
    requires playing { IsPlaying hosts.now now.old }
    requires clock { clock ≤ MAX_MOMENT }
    ensures report { OnOk result (report.new ≡ report.old ++ line_text line (if has_come now.old number then message_said hosts.now now.old clock number else codes "not in flight")) }
    ensures simulation { OnOk result (now.new ≡ simulation_after hosts.now now.old (if has_come now.old number then unless_broken now.old number (Does Rests) (Does (Arrives (message_position now.old number) clock)) else Does Rests)) }
{
    if !now.has_come(number) {
        return add_said(report, line, "not in flight");
    }
    if now.is_broken(number) {
        return add_said(report, line, "heard");
    }
    let position = now.message_position(number);
    arrive(alloc, hosts, now, position, clock, line, report)
}

/// The message of this number is lost, where it is in flight.
pub fn lose(
    now: &mut Rehearsal,
    number: u64,
    line: u64,
    report: &mut ReportText,
) -> Result<(), Memory>
    ensures report { OnOk result (report.new ≡ report.old ++ line_text line (if flies now.old number then codes "lost" else codes "not in flight")) }
    ensures simulation { (hosts : List ScriptHost) → OnOk result (now.new ≡ simulation_after hosts now.old (if flies now.old number then unless_broken now.old number (Hears number) (Does (Lost (message_position now.old number))) else Does Rests)) }
{
    if !now.flies(number) {
        return add_said(report, line, "not in flight");
    }
    if now.is_broken(number) {
        now.hear(number);
        return add_said(report, line, "lost");
    }
    now.land(now.message_position(number));
    add_said(report, line, "lost")
}
