//! A booking: a run of a host for itself, accepted and confirmed at once where it fits.
ghost use Rattle.std.specs.Prelude.{◌≡◌, ◌≤◌, ◌∷◌, ◌+◌, None, [], IfOk, length, true};
ghost use Rattle.ps_time.specs.Name.{is_name};
ghost use Rattle.ps_time.specs.declared.moment.TheConstants.{MAX_LENGTH, MAX_MOMENT};
ghost use Rattle.plugin_core.specs.Bounds.{IsTest};
ghost use Rattle.plugin_core.specs.Participants.{participants};
ghost use Rattle.run_states.specs.Preemption.{conflicts};
ghost use Rattle.run_states.specs.Rows.{IsAscendingRows, find_row};
ghost use Rattle.part_core.specs.Seen.{IsUnbooked};
ghost use Rattle.host_model.specs.Book.{keys_of_rows, limits_in};
ghost use Rattle.host_model.specs.Booking.{book_run, booked_as, booking, booking_key, booking_outcome, booking_test, booking_tool};
ghost use Rattle.host_model.specs.Fits.{preempted_keys};
ghost use Rattle.host_model.specs.declared.change.Change.TheVariants.{Accepted, Confirmed};
ghost use Rattle.host_inputs.specs.Kept.{book_of};

use crate::hosting::Hosting;
use crate::outcome::answered;
use host_model::change::Change;
use host_model::config::Config;
use host_model::part::Decision;
use host_model::reply::{Outcome, Reply};
use part_core::decision::decide;
use part_core::fit::wanted_interval;
use part_core::reading::Reading;
use plugin_core::participants::participants_of;
use plugin_core::test_spec::{Sleep, TestSpec, class_of};
use plugin_tool::tool::{Tool, tool_name};
use ps_time::asker::Asker;
use ps_time::boxed::Boxed;
use ps_time::class::Class;
use ps_time::interval::Interval;
use ps_time::items::Items;
use ps_time::key::RunKey;
use ps_time::memory::Memory;
use ps_time::moment::{Length, Moment};
use ps_time::text::Text;
use run_states::proposal::Proposal;
use run_states::why::{Denial, What};
use std::alloc::Global;

/// The last number that a booking can have.
pub const LAST_BOOKING: u32 = 4_294_967_295;

/// What a booking comes to: its number is one more than the greatest of this host's bookings, and after the last one
/// there is none. It is decided as a proposal of this host to itself.
pub fn book_run<R: Hosting>(
    alloc: Global,
    book: &R,
    config: &Config,
    class: Class,
    priority: i16,
    start: Moment,
    duration: Length,
) -> Result<Outcome, Memory>
    requires name { is_name config.now.name ≡ true }
    requires start { start ≤ MAX_MOMENT }
    requires some { 1 ≤ duration }
    requires short { duration ≤ MAX_LENGTH }
    requires limits { limits_in config.now (book_of (R.at book.now) (R.seen book.now) (R.kept book.now)) ≡ R.in_force book.now }
    requires epoch { length (R.kept book.now).epochs ≡ R.latest book.now }
    ensures { IfOk result (λ o. o ≡ book_run config.now (book_of (R.at book.now) (R.seen book.now) (R.kept book.now)) (R.at book.now) class priority start duration) }
{
    let last = book.greatest_number(config.number, 0);
    if last == LAST_BOOKING {
        let denial = Denial::Full(What::Numbers, u64::from(last));
        return Ok(answered(alloc, Reply::Denied(denial)));
    }
    let proposal = booking(alloc, config, last + 1, class, priority, start, duration)?;
    decide_booking(alloc, book, config, proposal)
}

// A proposal of the host to itself.
fn booking(
    alloc: Global,
    config: &Config,
    number: u32,
    class: Class,
    priority: i16,
    start: Moment,
    length: Length,
) -> Result<Proposal, Memory>
    ensures { IfOk result (λ p. p ≡ booking config.now number class priority start length) }
{
    let tool = Text::new(alloc, tool_name(booking_tool(class)))?;
    let asker = Asker {
        requester: Text::new(alloc, "127.0.0.1")?,
        server: config.name.copy(alloc)?,
    };
    Ok(Proposal {
        key: booking_key(config.number, number),
        test: booking_test(alloc, &config.name, class, length)?,
        tool,
        start,
        priority,
        asker,
    })
}

fn booking_key(host: u16, number: u32) -> RunKey
    ensures { result ≡ booking_key host number }
{
    RunKey {
        lead: host,
        task: 0,
        number,
        attempt: 0,
    }
}

// The test by which a host books a class for itself.
fn booking_test(
    alloc: Global,
    name: &Text,
    class: Class,
    length: Length,
) -> Result<TestSpec, Memory>
    ensures { IfOk result (λ test. test ≡ booking_test name.now class length) }
{
    Ok(match class {
        Class::BackgroundMulti => TestSpec::Idlebgm {
            sleep: Sleep::of(length),
            interval: length,
        },
        Class::Background => TestSpec::Idle(Sleep::of(length)),
        Class::Normal => TestSpec::Simplestream {
            dest: name.copy(alloc)?,
            test_material: Text::new(alloc, "")?,
            dawdle: 0,
            timeout: length,
        },
        Class::Exclusive => TestSpec::Idleex(Sleep::of(length)),
    })
}

// The tool by which it runs.
fn booking_tool(class: Class) -> Tool
    ensures { result ≡ booking_tool class }
{
    match class {
        Class::BackgroundMulti => Tool::Sleepbgm,
        Class::Background => Tool::Sleep,
        Class::Normal => Tool::Simplestreamer,
        Class::Exclusive => Tool::Sleep,
    }
}

// The booking is a new run, so it fits, or there is a reason why not.
fn decide_booking<R: Hosting>(
    alloc: Global,
    book: &R,
    config: &Config,
    proposal: Proposal,
) -> Result<Outcome, Memory>
    requires test { IsTest proposal.test }
    requires start { proposal.start ≤ MAX_MOMENT }
    requires new { find_row (R.seen book.now) proposal.key ≡ None }
    requires ascending { IsAscendingRows (R.seen book.now) }
    requires limits { limits_in config.now (book_of (R.at book.now) (R.seen book.now) (R.kept book.now)) ≡ R.in_force book.now }
    requires epoch { length (R.kept book.now).epochs ≡ R.latest book.now }
    ensures { IfOk result (λ o. o ≡ booked_as config.now (book_of (R.at book.now) (R.seen book.now) (R.kept book.now)) (R.at book.now) proposal) }
{
    match decide(alloc, book, config, config.name.as_str(), &proposal)? {
        Decision::New => booked(alloc, book, config, proposal),
        Decision::Known(_) => unreachable!(),
        Decision::Denied(denial) => {
            drop(proposal);
            Ok(answered(alloc, Reply::Denied(denial)))
        }
    }
}

// It is accepted and confirmed.
fn booked<R: Hosting>(
    alloc: Global,
    book: &R,
    config: &Config,
    proposal: Proposal,
) -> Result<Outcome, Memory>
    requires test { IsTest proposal.test }
    requires start { proposal.start ≤ MAX_MOMENT }
    requires unbooked { IsUnbooked proposal.key (R.seen book.now) }
    requires ascending { IsAscendingRows (R.seen book.now) }
    requires epoch { length (R.kept book.now).epochs ≡ R.latest book.now }
    ensures { IfOk result (λ o. o ≡ booking_outcome config.now (book_of (R.at book.now) (R.seen book.now) (R.kept book.now)) proposal None) }
{
    let key = proposal.key;
    let preempted = preempted_keys(alloc, book, &proposal)?;
    let list = booked_changes(alloc, book, config, proposal)?;
    Ok(Outcome {
        reply: Reply::Booked { key, preempted },
        list,
    })
}

fn booked_changes<R: Reading>(
    alloc: Global,
    book: &R,
    config: &Config,
    proposal: Proposal,
) -> Result<Items<Change>, Memory>
    ensures { IfOk result (λ list. list ≡ Accepted proposal (participants proposal.test config.now.name) (R.latest book.now) ∷ Confirmed proposal.key ∷ []) }
{
    let key = proposal.key;
    let mut list = Vec::with_capacity(alloc, 2)?;
    list.push(acceptance(alloc, book, config.name.as_str(), proposal)?)?;
    list.push(Change::Confirmed(key))?;
    Ok(Items::from_vec(list))
}

/// The change that accepts a run of this lead, under the limits in force.
pub fn acceptance<R: Reading>(
    alloc: Global,
    book: &R,
    lead: &str,
    proposal: Proposal,
) -> Result<Change, Memory>
    ensures { IfOk result (λ change. change ≡ Accepted proposal (participants proposal.test lead.now) (R.latest book.now)) }
{
    let participants = participants_of(alloc, &proposal.test, lead)?;
    Ok(Change::Accepted {
        proposal: Boxed::new(alloc, proposal)?,
        participants,
        epoch: book.epoch(),
    })
}

/// The runs that a run preempts where it is accepted, ascending: a walk from one conflict to the next, which looks at no
/// other row.
pub fn preempted_keys<R: Reading>(
    alloc: Global,
    book: &R,
    proposal: &Proposal,
) -> Result<Items<RunKey>, Memory>
    requires test { IsTest proposal.now.test }
    requires start { proposal.now.start ≤ MAX_MOMENT }
    requires unbooked { IsUnbooked proposal.now.key (R.seen book.now) }
    requires ascending { IsAscendingRows (R.seen book.now) }
    ensures { IfOk result (λ keys. keys ≡ preempted_keys (R.seen book.now) proposal.now) }
{
    let interval = wanted_interval(proposal);
    conflicts(
        alloc,
        book,
        proposal.key,
        class_of(&proposal.test),
        &interval,
    )
}

fn conflicts<R: Reading>(
    alloc: Global,
    book: &R,
    run: RunKey,
    class: Class,
    interval: &Interval,
) -> Result<Items<RunKey>, Memory>
    requires unbooked { IsUnbooked run (R.seen book.now) }
    requires ascending { IsAscendingRows (R.seen book.now) }
    ensures { IfOk result (λ keys. keys ≡ keys_of_rows (conflicts run class interval.now (R.seen book.now))) }
{
    let mut keys = Items::new(alloc);
    let mut last = None;
    while let Some(key) = book.next_conflict(run, class, interval, last) {
        keys.push(key)?;
        last = Some(key);
    }
    Ok(keys)
}
