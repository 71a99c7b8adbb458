//! Posting a task at its lead.
ghost use Rattle.std.specs.Prelude.{◌≡◌, IfOk, find, length, map, not};
ghost use Rattle.plugin_core.specs.Participants.{is_named};
ghost use Rattle.host_model.specs.Book.{Book};
ghost use Rattle.host_model.specs.Post.{is_known, post, posted, poster, unknown_host};
ghost use Rattle.host_model.specs.Propose.{answered};
ghost use Rattle.lead_core.specs.Books.{IsBookOf};
ghost use Rattle.lead_core.specs.Posting.{admitted_at, post_at, row_at, unless_full_at};

use host_model::change::Change;
use host_model::config::{Config, Peer};
use host_model::reply::{Outcome, Reply};
use host_model::task_row::TaskRow;
use part_core::reading::Reading;
use plugin_core::participants::participants_of;
use plugin_core::test_spec::TestSpec;
use ps_time::asker::{Asker, Verdict};
use ps_time::boxed::Boxed;
use ps_time::items::Items;
use ps_time::memory::Memory;
use ps_time::text::Text;
use std::alloc::Global;
use task_spec::task::Task;

/// How many tasks a host keeps.
pub const MOST_TASKS: u32 = 2_000;

/// What posting a task comes to at a host that keeps so many tasks: it is refused for a participant that is neither this
/// host nor a peer, by the limits, or for want of a place, in this order. Else it is kept, with its priority clipped to
/// the ceiling of who asks.
#[tactic(auto, using(crate::proofs::PostLemmas::posting_in))]
pub fn post<R: Reading>(
    alloc: Global,
    book: &R,
    config: &Config,
    tasks: u32,
    task: Task,
    requester: &str,
) -> Result<Outcome, Memory>
    ensures { (b : Book) → IsBookOf config.now (R.seen book.now) (R.in_force book.now) (R.latest book.now) b → length b.tasks ≡ tasks
        → IfOk result (λ outcome. outcome ≡ post config.now b (R.at book.now) task requester.now) }
{
    posted_at(alloc, book, config, tasks, task, requester)
}

// `post`, over the limits in force.
fn posted_at<R: Reading>(
    alloc: Global,
    book: &R,
    config: &Config,
    tasks: u32,
    task: Task,
    requester: &str,
) -> Result<Outcome, Memory>
    ensures { IfOk result (λ outcome. outcome ≡ post_at config.now (R.in_force book.now) tasks (R.at book.now) task requester.now) }
{
    match unknown_host(alloc, config, &task.test)? {
        Some(name) => {
            drop(task);
            Ok(answered(alloc, Reply::UnknownHost(name)))
        }
        None => admit(alloc, book, config, tasks, task, requester),
    }
}

// Only what the limits admit is kept.
fn admit<R: Reading>(
    alloc: Global,
    book: &R,
    config: &Config,
    tasks: u32,
    task: Task,
    requester: &str,
) -> Result<Outcome, Memory>
    ensures { IfOk result (λ outcome. outcome ≡ admitted_at (R.in_force book.now) tasks (R.at book.now) task (poster config.now requester.now)) }
{
    let asker = poster(alloc, config, requester)?;
    match book.limits().admits(&asker, &task.test) {
        Verdict::Permitted(_) => keep(alloc, book, tasks, task, asker),
        verdict => {
            drop(task);
            drop(asker);
            Ok(answered(alloc, Reply::NotAdmitted(verdict)))
        }
    }
}

// As far as there is a place for one more.
fn keep<R: Reading>(
    alloc: Global,
    book: &R,
    tasks: u32,
    task: Task,
    asker: Asker,
) -> Result<Outcome, Memory>
    ensures { IfOk result (λ outcome. outcome ≡ unless_full_at (R.in_force book.now) tasks (R.at book.now) task asker) }
{
    if tasks < MOST_TASKS {
        posted(alloc, row_at(book, tasks + 1, task, asker))
    } else {
        drop(task);
        drop(asker);
        Ok(answered(alloc, Reply::TasksFull(MOST_TASKS)))
    }
}

fn row_at<R: Reading>(book: &R, serial: u32, task: Task, asker: Asker) -> TaskRow
    ensures { result ≡ row_at (R.in_force book.now) serial (R.at book.now) task asker }
{
    let ceiling = book.limits().ceiling(&asker);
    let priority = task.priority.min(ceiling);
    TaskRow {
        serial,
        task: Task { priority, ..task },
        asker,
        posted: book.moment(),
        closed: None,
    }
}

fn posted(alloc: Global, task: TaskRow) -> Result<Outcome, Memory>
    ensures { IfOk result (λ outcome. outcome ≡ posted task) }
{
    let reply = Reply::Posted(task.serial);
    let mut list = Items::new(alloc);
    list.push(Change::Posted(Boxed::new(alloc, task)?))?;
    Ok(Outcome { reply, list })
}

// A reply without changes.
fn answered(alloc: Global, reply: Reply) -> Outcome
    ensures { result ≡ answered reply }
{
    Outcome {
        reply,
        list: Items::new(alloc),
    }
}

// Who asks, where this host leads.
fn poster(alloc: Global, config: &Config, requester: &str) -> Result<Asker, Memory>
    ensures { IfOk result (λ asker. asker ≡ poster config.now requester.now) }
{
    Ok(Asker {
        requester: Text::new(alloc, requester)?,
        server: config.name.copy(alloc)?,
    })
}

/// The name of the first participant that is neither this host nor a peer.
pub fn unknown_host(alloc: Global, config: &Config, test: &TestSpec) -> Result<Option<Text>, Memory>
    ensures { IfOk result (λ name. name ≡ unknown_host config.now test.now) }
{
    let names = participants_of(alloc, test, config.name.as_str())?;
    first_unknown(alloc, config, names.as_slice())
}

fn first_unknown(alloc: Global, config: &Config, names: &[Text]) -> Result<Option<Text>, Memory>
    ensures { IfOk result (λ found. found ≡ find (λ name. not (is_known config.now name)) names.now) }
{
    for name in names {
        if !is_known(config, name.as_str()) {
            return Ok(Some(name.copy(alloc)?));
        }
    }
    Ok(None)
}

fn is_known(config: &Config, name: &str) -> bool
    ensures { result ≡ is_known config.now name.now }
{
    config.name.as_str() == name || is_peer(config.peers.as_slice(), name)
}

fn is_peer(peers: &[Peer], name: &str) -> bool
    ensures { result ≡ is_named name.now (map (λ p. p.name) peers.now) }
{
    for peer in peers {
        if peer.name.as_str() == name {
            return true;
        }
    }
    false
}
