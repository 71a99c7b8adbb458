//! How far a rehearsal has come: its hosts, and the messages between them.
ghost use Rattle.std.specs.List.{list_any};
ghost use Rattle.std.specs.Option.{option_copied};
ghost use Rattle.std.specs.Prelude.{◌∷◌, ◌+◌, ◌-◌, ◌^◌, ◌==◌, ◌≡◌, ◌≤◌, ◌<◌, [], IfOk, List, None, OnOk, Some, count_by, if◌then◌else◌, is_some, length, max, nat_lt, set, true};
ghost use Rattle.ps_time.specs.declared.moment.TheConstants.{MAX_MOMENT};
ghost use Rattle.host_model.specs.Conditions.{IsConfig, IsInput};
ghost use Rattle.world_law.specs.Events.{brings};
ghost use Rattle.world_law.specs.World.{Message as Sent};
ghost use Rattle.rehearsal_script.specs.declared.script.ScriptHost.{ScriptHost};
ghost use Rattle.rehearsal_model.specs.Moves.{Move.Arms, Move.Retools};
ghost use Rattle.rehearsal_model.specs.Reaching.{IsKnown};
ghost use Rattle.rehearsal_model.specs.Rehearsal.{retooled};
ghost use Rattle.rehearsal_model.specs.declared.outcome.StepOutcome.TheVariants.{Crashed, Faulted};
ghost use Rattle.rehearsal_model.specs.Simulations.{Action.Does, Action.Fails, Action.Hears, Action.Reopens, as_read, at_last, outcome_at, outcome_by, config_of, count_sent, flies, has_come, is_broken, message_position, simulation_after, held_at, held_in};
ghost use Rattle.rehearsal_model.specs.Simulated.{answered, ended_at, fault_in, stop_met};
ghost use Rattle.rehearsal_model.specs.Seen.{disarmed, landed, message, stop_at, stop_in};
ghost use Rattle.rehearsal_state.specs.Moved.{with_act, with_broken, with_messages, with_step};
ghost use Rattle.rehearsal_state.specs.Ready.{IsReady};

use crate::message::Message;
use host_model::input::Input;
use host_model::reply::Reply;
use ps_http::reader::FieldSpans;
use ps_time::items::Items;
use ps_time::memory::Memory;
use ps_time::moment::Moment;
use ps_time::text::Text;
use rehearsal_model::outcome::StepOutcome;
use rehearsal_script::script::Stop;
use simulated_host::simulated::SimulatedHost;
use std::alloc::Global;
use std::marker::Model;

/// The hosts of a script as they stand, in the order of their declaration, and all messages that they sent, in that
/// order.
pub struct Rehearsal {
    held_hosts: Vec<SimulatedHost>,
    messages: Vec<Message>,
    // the places among the messages of those in flight, from 1 on, ascending
    flying: Vec<u64>,
    // the greatest moment of the moves so far
    last: Moment,
    // the places of the hosts whose next step is to stop, and where it is to
    stops: Vec<(usize, Stop)>,
    // the numbers of the answers that faults took the place of, and of those in flight
    broken: Vec<u64>,
    unheard: Vec<u64>,
    // room for the fields of the heads that are read
    fields: FieldSpans,
}

impl Model for Rehearsal {
    ghost use Rattle.rehearsal_model.specs.Simulations.{Simulation};

    ghost Value = { Simulation };

    ghost view = { λ r. record { held_hosts = r.held_hosts.items; messages = r.messages.items; flying = r.flying.items; last = r.last; stops = r.stops.items; broken = r.broken.items; unheard = r.unheard.items } };
}

// Written out, so that a drop elsewhere is one call.
impl Drop for Rehearsal {
    fn drop(self) {
        let Rehearsal {
            held_hosts: _,
            messages: _,
            flying: _,
            last: _,
            stops: _,
            broken: _,
            unheard: _,
            fields: _,
        } = self;
    }
}

impl Rehearsal {
    /// These hosts, before the first move.
    pub fn new(alloc: Global, held_hosts: Vec<SimulatedHost>) -> Result<Rehearsal, Memory>
        ensures { IfOk result (λ now. now ≡ record { held_hosts = held_hosts.items; messages = []; flying = []; last = 0; stops = []; broken = []; unheard = [] }) }
    {
        let fields = FieldSpans::new(alloc)?;
        Ok(Rehearsal {
            held_hosts,
            messages: Vec::new(alloc),
            flying: Vec::new(alloc),
            last: 0,
            stops: Vec::new(alloc),
            broken: Vec::new(alloc),
            unheard: Vec::new(alloc),
            fields,
        })
    }

    /// The hosts, in the order of their declaration.
    pub fn held_hosts(&self) -> &[SimulatedHost]
        ensures { result.now ≡ self.now.held_hosts }
    {
        self.held_hosts.as_slice()
    }

    /// The hosts, given away.
    pub fn into_held_hosts(self) -> Vec<SimulatedHost>
        ensures { result.items ≡ self.held_hosts }
    {
        let Rehearsal {
            held_hosts,
            messages: _,
            flying: _,
            last: _,
            stops: _,
            broken: _,
            unheard: _,
            fields: _,
        } = self;
        held_hosts
    }

    /// The messages of hosts, in the order in which they were sent.
    pub fn messages(&self) -> &[Message]
        ensures { result.now ≡ self.now.messages }
    {
        self.messages.as_slice()
    }

    /// The places among them of those in flight, from 1 on, ascending.
    pub fn flying(&self) -> &[u64]
        ensures { result.now ≡ self.now.flying }
    {
        self.flying.as_slice()
    }

    /// The greatest moment of the moves so far, in seconds since 1970 UTC; 0 at first.
    pub fn last(&self) -> Moment
        ensures { result ≡ self.now.last }
    {
        self.last
    }

    /// A move of this moment has been made.
    pub fn advance(&mut self, moment: Moment)
        ensures { self.new ≡ at_last moment self.old }
    {
        self.last = self.last.max(moment);
    }

    /// The host at a place.
    pub fn held_host(&self, place: usize) -> &SimulatedHost
        requires { place < length self.now.held_hosts }
        ensures { result.now ≡ held_at self.now place }
    {
        &self.held_hosts[place]
    }

    // A step that isn't to stop. It answers nothing where a call of a disk failed.
    fn act(
        &mut self,
        alloc: Global,
        place: usize,
        clock: Moment,
        input: Input,
    ) -> Result<Option<Reply>, Memory>
        requires ready { IsReady self.old place clock }
        requires input { IsInput (config_of self.old place) input }
        ensures reply { IfOk result (λ reply. reply ≡ answered (held_at self.old place) clock input) }
        ensures simulation { OnOk result (self.new ≡ with_act self.old place clock input) }
    {
        let held_host = &mut self.held_hosts[place];
        held_host.act(alloc, clock, input)
    }

    // What comes of a step of a host that isn't to stop.
    fn make(
        &mut self,
        alloc: Global,
        place: usize,
        clock: Moment,
        input: Input,
    ) -> Result<StepOutcome, Memory>
        requires ready { IsReady self.old place clock }
        requires input { IsInput (config_of self.old place) input }
        requires stop { stop_at (as_read self.old) place ≡ None }
        ensures outcome { IfOk result (λ outcome. outcome ≡ outcome_at self.old place clock input) }
        ensures simulation { OnOk result (self.new ≡ with_step self.old place clock input) }
    {
        let reply = self.act(alloc, place, clock, input)?;
        Ok(answer_of(reply))
    }

    // A step of a host that is to stop: it stops, and the host is opened again on what that leaves of its disks, at the same clock,
    // unless a call of a disk fails before.
    fn crash(
        &mut self,
        alloc: Global,
        place: usize,
        clock: Moment,
        input: Input,
        stop: Stop,
    ) -> Result<StepOutcome, Memory>
        requires ready { IsReady self.old place clock }
        requires input { IsInput (config_of self.old place) input }
        requires stop { stop_at (as_read self.old) place ≡ Some stop }
        ensures outcome { IfOk result (λ outcome. outcome ≡ outcome_at self.old place clock input) }
        ensures simulation { OnOk result (self.new ≡ with_step self.old place clock input) }
    {
        let stopped = crash_at(alloc, &mut self.held_hosts, place, clock, input, stop)?;
        disarm(&mut self.stops, place);
        Ok(end_of(stopped))
    }

    /// A step of the host at a place, at a clock in seconds since 1970 UTC. Where it is to stop, the host is opened again on what
    /// that leaves of its disks; a call of a disk that fails before disarms it of the stop.
    pub fn step(
        &mut self,
        alloc: Global,
        place: usize,
        clock: Moment,
        input: Input,
    ) -> Result<StepOutcome, Memory>
        requires ready { IsReady self.old place clock }
        requires input { IsInput (config_of self.old place) input }
        ensures outcome { IfOk result (λ outcome. outcome ≡ outcome_at self.old place clock input) }
        ensures simulation { OnOk result (self.new ≡ with_step self.old place clock input) }
    {
        match self.stop(place) {
            Some(stop) => self.crash(alloc, place, clock, input, stop),
            None => self.make(alloc, place, clock, input),
        }
    }

    /// Opens the host at a place again, at a clock in seconds since 1970 UTC, as after a crash between its steps. It has its book,
    /// and ends what it was running. Where a call of a disk fails, that is told as out of memory.
    pub fn reopen(&mut self, alloc: Global, place: usize, clock: Moment) -> Result<(), Memory>
        requires { IsReady self.old place clock }
        ensures { (hosts : List ScriptHost) → OnOk result (self.new ≡ simulation_after hosts self.old (Reopens place clock)) }
    {
        match self.act(alloc, place, clock, Input::Open)? {
            Some(reply) => {
                drop(reply);
                Ok(())
            }
            None => Err(Memory),
        }
    }

    /// Gives the host at a place other tools.
    pub fn retool(&mut self, alloc: Global, place: usize, tools: Items<Text>) -> Result<(), Memory>
        requires place { place < length self.old.held_hosts }
        requires config { IsConfig (retooled tools (config_of self.old place)) }
        ensures { (hosts : List ScriptHost) → OnOk result (self.new ≡ simulation_after hosts self.old (Does (Retools place tools))) }
    {
        let held_host = &mut self.held_hosts[place];
        held_host.retool(alloc, tools)
    }

    /// Of each disk of the host at a place the call of this number is to fail, counted from 1 from now on, or none for 0. The first
    /// fault disarms both, and the host of a stop.
    pub fn fail_at(&mut self, place: usize, call: u64)
        requires { place < length self.old.held_hosts }
        ensures { (hosts : List ScriptHost) → self.new ≡ simulation_after hosts self.old (Fails place call) }
    {
        let held_host = &mut self.held_hosts[place];
        held_host.fail_at(call);
    }

    // Where the next step of the host at a place is to stop, if it is to.
    fn stop(&self, place: usize) -> Option<Stop>
        ensures { result ≡ stop_at (as_read self.now) place }
    {
        stop_of(self.stops.as_slice(), place)
    }

    /// The next step of the host at a place is to stop.
    pub fn arm(&mut self, place: usize, stop: Stop) -> Result<(), Memory>
        ensures { (hosts : List ScriptHost) → OnOk result (self.new ≡ simulation_after hosts self.old (Does (Arms place stop))) }
    {
        disarm(&mut self.stops, place);
        self.stops.push((place, stop))?;
        Ok(())
    }

    /// How many messages were sent, with those that faults took the place of. They are numbered together, from 1 on.
    pub fn count_sent(&self) -> u64
        ensures { result ≡ count_sent self.now }
    {
        self.next_number() - 1
    }

    /// The number of the next message.
    pub fn next_number(&self) -> u64
        ensures { result ≡ count_sent self.now + 1 }
    {
        self.messages.len() as u64 + self.broken.len() as u64 + 1
    }

    /// How many answers faults took the place of.
    pub fn count_broken(&self) -> usize
        ensures count { result ≡ length self.now.broken }
        ensures few { result < 2 ^ 63 }
    {
        self.broken.len()
    }

    /// Whether the message of this number is an answer that a fault took the place of.
    pub fn is_broken(&self, number: u64) -> bool
        ensures { result ≡ is_broken self.now number }
    {
        is_among(self.broken.as_slice(), number)
    }

    /// The place of the message of a number among those of the hosts, from 1 on.
    pub fn message_position(&self, number: u64) -> u64
        ensures { result ≡ message_position self.now number }
    {
        number.saturating_sub(count_below(self.broken.as_slice(), number))
    }

    /// Whether the message of this number is in flight.
    pub fn flies(&self, number: u64) -> bool
        ensures { result ≡ flies self.now number }
    {
        if self.is_broken(number) {
            return is_among(self.unheard.as_slice(), number);
        }
        is_among(self.flying.as_slice(), self.message_position(number))
    }

    /// Whether the message of this number was sent, and is no longer in flight.
    pub fn has_come(&self, number: u64) -> bool
        ensures { result ≡ has_come self.now number }
    {
        let was_sent = 1 <= number && number <= self.count_sent();
        was_sent && !self.flies(number)
    }

    /// The message at a place among those of the hosts, from 1 on, if there is one.
    pub fn message(&self, position: u64) -> Option<&Message>
        ensures { option_copied result ≡ message (as_read self.now) position }
    {
        self.messages.get(position.saturating_sub(1) as usize)
    }

    /// The message at a place among those of the hosts, from 1 on, where there is one.
    pub fn message_at(&self, position: u64) -> &Message
        requires { position - 1 < length self.now.messages }
        ensures { message (as_read self.now) position ≡ Some result.now }
    {
        &self.messages[position.saturating_sub(1) as usize]
    }

    /// What this message asks the host at a place, to which it goes, at a clock in seconds since 1970 UTC.
    pub fn brings(
        &mut self,
        alloc: Global,
        position: u64,
        place: usize,
        clock: Moment,
    ) -> Result<Input, Memory>
        requires sent { position - 1 < length self.old.messages }
        requires place { place < length self.old.held_hosts }
        requires clock { clock ≤ MAX_MOMENT }
        requires known { (l : Sent) → message (as_read self.old) position ≡ Some l → l.reply ≡ None → IsKnown (config_of self.old place) l }
        ensures input { (l : Sent) → message (as_read self.old) position ≡ Some l → IfOk result (λ input. input ≡ brings l l.reply) }
        ensures simulation { self.new ≡ self.old }
    {
        let message = &self.messages[position.saturating_sub(1) as usize];
        let config = self.held_hosts[place].config();
        message.brings(alloc, &mut self.fields, config, clock)
    }

    /// The message at a place among those of the hosts, from 1 on, is no longer in flight.
    pub fn land(&mut self, position: u64)
        ensures { self.new ≡ record self.old { flying = landed position self.old.flying } }
    {
        take_out(&mut self.flying, position);
    }

    /// An answer that a fault took the place of, of this number, is no longer in flight.
    pub fn hear(&mut self, number: u64)
        ensures { (hosts : List ScriptHost) → self.new ≡ simulation_after hosts self.old (Hears number) }
    {
        take_out(&mut self.unheard, number);
    }

    /// Sends a message.
    pub fn send(&mut self, message: Message) -> Result<(), Memory>
        ensures { OnOk result (self.new ≡ with_messages self.old (message ∷ [])) }
    {
        self.messages.push(message)?;
        self.flying.push(self.messages.len() as u64)?;
        Ok(())
    }

    /// Sends messages, the first one first.
    pub fn send_all(&mut self, messages: Vec<Message>) -> Result<(), Memory>
        ensures { OnOk result (self.new ≡ with_messages self.old messages.items) }
    {
        for message in messages {
            self.send(message)?;
        }
        Ok(())
    }

    /// A fault took the place of an answer, which has a number and is in flight.
    pub fn send_broken(&mut self) -> Result<(), Memory>
        ensures { OnOk result (self.new ≡ with_broken self.old) }
    {
        let number = self.next_number();
        self.broken.push(number)?;
        self.unheard.push(number)?;
        Ok(())
    }
}

// A step of the host at the place that is to stop, and whether it stopped.
fn crash_at(
    alloc: Global,
    held_hosts: &mut Vec<SimulatedHost>,
    place: usize,
    clock: Moment,
    input: Input,
    stop: Stop,
) -> Result<bool, Memory>
    requires place { place < length held_hosts.old.items }
    requires config { IsConfig (held_in held_hosts.old.items place).state.config }
    requires clock { clock ≤ MAX_MOMENT }
    requires input { IsInput (held_in held_hosts.old.items place).state.config input }
    ensures stopped { IfOk result (λ stopped. stopped ≡ is_some (stop_met (Some stop) (fault_in (held_in held_hosts.old.items place) clock input))) }
    ensures held_hosts { OnOk result (held_hosts.new.items ≡ set held_hosts.old.items place (ended_at (held_in held_hosts.old.items place) clock input stop)) }
{
    let held_host = held_hosts.remove(place);
    let ended = held_host.crash(alloc, clock, input, stop)?;
    held_hosts.insert(place, ended.0)?;
    Ok(ended.1)
}

// What came of a step of a host that isn't to stop, by what it answered.
fn answer_of(reply: Option<Reply>) -> StepOutcome
    ensures { result ≡ outcome_by None reply }
{
    match reply {
        Some(reply) => StepOutcome::Answered(reply),
        None => StepOutcome::Faulted,
    }
}

// Of one that is: it stopped, or met a fault before.
fn end_of(stopped: bool) -> StepOutcome
    ensures { result ≡ (if stopped then Crashed else Faulted) }
{
    if stopped {
        StepOutcome::Crashed
    } else {
        StepOutcome::Faulted
    }
}

fn stop_of(stops: &[(usize, Stop)], place: usize) -> Option<Stop>
    ensures { result ≡ stop_in place stops.now }
{
    for armed in stops {
        if armed.0 == place {
            return Some(armed.1);
        }
    }
    None
}

fn disarm(stops: &mut Vec<(usize, Stop)>, place: usize)
    ensures { stops.new.items ≡ disarmed place stops.old.items }
{
    stops.retain(|armed| armed.0 != place);
}

fn is_among(numbers: &[u64], number: u64) -> bool
    ensures { result ≡ list_any (λ n. n == number) numbers.now }
{
    for other in numbers {
        if *other == number {
            return true;
        }
    }
    false
}

// How many of the numbers are less than this one.
fn count_below(numbers: &[u64], number: u64) -> u64
    ensures { result ≡ count_by (λ n. nat_lt n number) numbers.now }
{
    let mut count = 0_u64;
    for other in numbers {
        if *other < number {
            count += 1;
        }
    }
    count
}

fn take_out(numbers: &mut Vec<u64>, number: u64)
    ensures { numbers.new.items ≡ landed number numbers.old.items }
{
    numbers.retain(|other| *other != number);
}
