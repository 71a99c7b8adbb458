//! What comes into a book: tasks, and runs that are accepted, planned or asked about.
ghost use Rattle.std.specs.Prelude.{◌≡◌, ◌≤◌, ◌<◌, ◌↔◌, IsNone, IsSome, IsTrue, Some, length};
ghost use Rattle.ps_time.specs.Numbers.{greatest_moment};
ghost use Rattle.ps_time.specs.Span.{span_of};
ghost use Rattle.plugin_core.specs.Bounds.{IsTest};
ghost use Rattle.plugin_core.specs.TestSpec.{test_class, test_length};
ghost use Rattle.plugin_tool.specs.Choice.{tool_of_text};
ghost use Rattle.run_states.specs.Preemption.{planned_span};
ghost use Rattle.host_model.specs.Fits.{wanted_span};
ghost use Rattle.host_model.specs.MayFollow.{IsNewKey};
ghost use Rattle.host_model.specs.declared.change.Change.TheVariants.{Accepted as AcceptedChange, Asked as AskedChange, Planned as PlannedChange, Posted as PostedChange};
ghost use Rattle.host_model.proofs.Brings.{HasRoom};
ghost use Rattle.host_model.proofs.NewRows.{CanAccept};
ghost use Rattle.book_check.specs.Known.{IsReadTask};
ghost use Rattle.replay_check.specs.Suits.{FitsBook};
ghost use Rattle.replay_check.specs.Way.{IsFreeWay};

use crate::runs::{can_accept, can_ask};
use crate::tasks::MOST_TASKS;
use crate::way::is_way_free;
use book_check::tasks::is_lawful_task;
use host_book::book::HostBook;
use host_model::task_row::TaskRow;
use part_core::fit::{MOST_ROWS, wanted_interval};
use plugin_core::test_spec::{TestSpec, class_of, length_of};
use plugin_tool::choice::read_tool;
use ps_time::asker::Asker;
use ps_time::class::Class;
use ps_time::interval::Interval;
use ps_time::key::RunKey;
use ps_time::moment::{MAX_MOMENT, Moment};
use ps_time::text::Text;
use run_states::proposal::{Proposal, Question};
use run_states::row::RunRow;

/// Whether the task may be posted.
pub(crate) fn fits_task(number: u16, book: &HostBook, task: &TaskRow) -> bool
    requires { IsReadTask task.now }
    ensures { IsTrue result ↔ FitsBook number book.now.book (PostedChange task.now) }
{
    let count = book.tasks().len();
    count < MOST_TASKS && task.serial as usize == count + 1 && is_lawful_task(book.moment(), task)
}

fn has_room(book: &HostBook) -> bool
    ensures { IsTrue result ↔ HasRoom book.now.book }
{
    book.rows().len() < MOST_ROWS
}

fn is_new(book: &HostBook, key: RunKey) -> bool
    ensures { IsTrue result ↔ IsNewKey book.now.book key }
{
    book.rows().find(key).is_none()
}

// Whether a run may be accepted under the limits of this number, and all that is in its way can give way.
fn may_run(book: &HostBook, epoch: u32, class: Class, interval: &Interval) -> bool
    ensures { IsTrue result ↔ ((epoch ≤ length book.now.book.epochs) × IsFreeWay class interval.now book.now.book.rows) }
{
    epoch as usize <= book.epochs().len()
        && is_way_free(book.rows(), book.timeline(), class, interval)
}

fn may_accept(number: u16, book: &HostBook, proposal: &Proposal, hosts: &[Text], epoch: u32) -> bool
    requires { IsTest proposal.now.test }
    ensures { IsTrue result ↔ (IsNewKey book.now.book proposal.now.key × CanAccept number proposal.now hosts.now × HasRoom book.now.book
        × ((epoch ≤ length book.now.book.epochs) × IsFreeWay (test_class proposal.now.test) (wanted_span proposal.now) book.now.book.rows)) }
{
    is_new(book, proposal.key)
        && can_accept(number, proposal, hosts)
        && has_room(book)
        && may_run(
            book,
            epoch,
            class_of(&proposal.test),
            &wanted_interval(proposal),
        )
}

/// Whether the proposal may be accepted.
pub(crate) fn fits_accepted(
    number: u16,
    book: &HostBook,
    proposal: &Proposal,
    hosts: &[Text],
    epoch: u32,
) -> bool
    requires { IsTest proposal.now.test }
    ensures { IsTrue result ↔ FitsBook number book.now.book (AcceptedChange proposal.now hosts.now epoch) }
{
    let _known = book.rows();
    may_accept(number, book, proposal, hosts, epoch)
}

/// Whether the lead may ask about the run.
pub(crate) fn fits_asked(
    number: u16,
    book: &HostBook,
    question: &Question,
    hosts: &[Text],
    asker: &Asker,
) -> bool
    requires { IsTest question.now.test }
    ensures { IsTrue result ↔ FitsBook number book.now.book (AskedChange question.now hosts.now asker.now) }
{
    is_new(book, question.key) && can_ask(number, book.tasks(), question, hosts) && has_room(book)
}

fn interval_of(start: Moment, test: &TestSpec) -> Interval
    requires start { start ≤ greatest_moment }
    requires test { IsTest test.now }
    ensures { result ≡ span_of start (test_length test.now) }
{
    Interval {
        start,
        end: start + length_of(test),
    }
}

fn may_plan(book: &HostBook, row: &RunRow, start: Moment, tool: &Text, epoch: u32) -> bool
    requires { IsTest row.now.test }
    ensures { IsTrue result ↔ (IsNone row.now.accepted × IsNone row.now.closed × (IsSome (tool_of_text tool.now) × (start ≤ greatest_moment))
        × ((epoch ≤ length book.now.book.epochs) × IsFreeWay (test_class row.now.test) (planned_span start row.now) book.now.book.rows)) }
{
    row.accepted.is_none()
        && row.closed.is_none()
        && (read_tool(tool.as_str()).is_some() && start <= MAX_MOMENT)
        && may_run(
            book,
            epoch,
            class_of(&row.test),
            &interval_of(start, &row.test),
        )
}

/// Whether the run of the key may be planned for this start.
pub(crate) fn fits_planned(
    number: u16,
    book: &HostBook,
    key: RunKey,
    start: Moment,
    tool: &Text,
    epoch: u32,
) -> bool
    ensures { IsTrue result ↔ FitsBook number book.now.book (PlannedChange key start tool.now epoch) }
{
    match book.rows().find(key) {
        None => false,
        Some(row) => may_plan(book, row, start, tool, epoch),
    }
}
