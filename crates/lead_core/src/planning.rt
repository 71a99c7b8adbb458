//! What becomes of a run once every other participant has told when it is free: the lead accepts it, or closes it.
ghost use Rattle.std.specs.Prelude.{◌≡◌, ◌≤◌, Some, IfOk, IfSome, option_and_then};
ghost use Rattle.std.specs.Option.{option_copied};
ghost use Rattle.ps_time.specs.declared.moment.TheConstants.{MAX_MOMENT};
ghost use Rattle.run_states.specs.Rows.{find_row};
ghost use Rattle.part_core.specs.Seen.{IsUnbooked};
ghost use Rattle.host_model.specs.Book.{Book, find_task};
ghost use Rattle.host_model.specs.Fits.{objection};
ghost use Rattle.host_model.specs.declared.change.Change.TheVariants as change;
ghost use Rattle.run_states.specs.declared.why.Cause.TheVariants as cause;
ghost use Rattle.run_states.specs.declared.why.Why.TheVariants as why;
ghost use Rattle.host_model.specs.Plan.{change_of_plan, own_answer, plan_asked, plan_run, planned_proposal, wanted_tools};
ghost use Rattle.lead_core.specs.Books.{IsBookOf, book_of_rows};
ghost use Rattle.lead_core.specs.Planning.{IsInTime, MayPlan, planned_from, unless_objected_at};

use crate::plan::{is_answered, plan};
use host_model::change::Change;
use host_model::config::Config;
use host_model::lead::Planned;
use host_model::task_row::TaskRow;
use part_core::answer::answer_free;
use part_core::fit::objection;
use part_core::reading::Reading;
use ps_time::interval::Window;
use ps_time::key::RunKey;
use ps_time::memory::Memory;
use ps_time::moment::Moment;
use ps_time::text::Text;
use run_states::answer::FreeAnswer;
use run_states::proposal::{Proposal, Question};
use run_states::row::RunRow;
use run_states::why::{Cause, Denial, Why};
use std::alloc::Global;

/// What becomes of the run of a key, where its row is asked about and every other participant has told when it is free:
/// the lead accepts it with the common tool at the common start, or closes it for want of one, or for what it holds
/// against it itself. `task` is the run's task, where the host has it.
pub fn plan_run<R: Reading>(
    alloc: Global,
    book: &R,
    config: &Config,
    task: Option<&TaskRow>,
    key: RunKey,
) -> Result<Option<Change>, Memory>
    requires { IfSome (find_row (R.seen book.now) key) MayPlan }
    ensures { (b : Book) → IsBookOf config.now (R.seen book.now) (R.in_force book.now) (R.latest book.now) b → find_task b.tasks key.task ≡ option_copied task.entry
        → IfOk result (λ change. change ≡ option_and_then (plan_run config.now (R.at book.now) b) (find_row b.rows key)) }
{
    match book.find(key) {
        Some(row) if is_answered(row) => {
            let change = plan_answered(alloc, book, config, task, row)?;
            Ok(Some(change))
        }
        _ => Ok(None),
    }
}

fn plan_answered<R: Reading>(
    alloc: Global,
    book: &R,
    config: &Config,
    task: Option<&TaskRow>,
    row: &RunRow,
) -> Result<Change, Memory>
    requires may { MayPlan row.now }
    requires unbooked { IsUnbooked row.now.key (R.seen book.now) }
    ensures { (b : Book) → IsBookOf config.now (R.seen book.now) (R.in_force book.now) (R.latest book.now) b → find_task b.tasks row.now.key.task ≡ option_copied task.entry
        → IfOk result (λ change. change ≡ plan_asked config.now b (R.at book.now) row.now row.now.question) }
{
    match row.question {
        Some(window) => {
            let planned = planned(alloc, book, config, task, row, window)?;
            change_of_plan(alloc, book, config, row, planned)
        }
        None => Ok(unplanned(row.key, Cause::NoSlot)),
    }
}

// What the run comes to, with the lead's own answer of this moment.
fn planned<R: Reading>(
    alloc: Global,
    book: &R,
    config: &Config,
    task: Option<&TaskRow>,
    row: &RunRow,
    window: Window,
) -> Result<Planned, Memory>
    requires may { MayPlan row.now }
    requires asked { row.now.question ≡ Some window }
    ensures value { IfOk result (λ planned. planned ≡ planned_from config.now.installed (option_copied task.entry) row.now window (R.seen book.now) (R.at book.now)) }
    ensures in_time { IfOk result IsInTime }
{
    let own = own_answer(alloc, book, config, row, window)?;
    plan(alloc, wanted_tools(task), row, &own, book.moment())
}

fn own_answer<R: Reading>(
    alloc: Global,
    book: &R,
    config: &Config,
    row: &RunRow,
    window: Window,
) -> Result<FreeAnswer, Memory>
    requires { MayPlan row.now }
    ensures { IfOk result (λ answer. answer ≡ own_answer config.now (book_of_rows (R.seen book.now)) (R.at book.now) row.now window) }
{
    let question = Question {
        key: row.key,
        test: row.test.copy(alloc)?,
        priority: row.priority,
        window,
    };
    answer_free(alloc, book, config.installed.as_slice(), &question)
}

// The tools that the task names.
fn wanted_tools(task: Option<&TaskRow>) -> &[Text]
    ensures { result.now ≡ wanted_tools (option_copied task.entry) }
{
    match task {
        Some(task) => task.task.tools.as_slice(),
        None => &[],
    }
}

fn change_of_plan<R: Reading>(
    alloc: Global,
    book: &R,
    config: &Config,
    row: &RunRow,
    planned: Planned,
) -> Result<Change, Memory>
    requires may { MayPlan row.now }
    requires in_time { IsInTime planned }
    requires unbooked { IsUnbooked row.now.key (R.seen book.now) }
    ensures { (b : Book) → IsBookOf config.now (R.seen book.now) (R.in_force book.now) (R.latest book.now) b
        → IfOk result (λ change. change ≡ change_of_plan config.now b (R.at book.now) row.now planned) }
{
    match planned {
        Planned::At(start, tool) => accept(alloc, book, config, row, start, tool),
        Planned::NoTool => Ok(unplanned(row.key, Cause::NoTool)),
        Planned::NoSlot => Ok(unplanned(row.key, Cause::NoSlot)),
    }
}

fn unplanned(key: RunKey, cause: Cause) -> Change
    ensures { result ≡ change.Closed key (why.Nonstart cause) }
{
    Change::Closed {
        key,
        why: Why::Nonstart(cause),
    }
}

// The lead accepts the run, unless it objects itself.
fn accept<R: Reading>(
    alloc: Global,
    book: &R,
    config: &Config,
    row: &RunRow,
    start: Moment,
    tool: Text,
) -> Result<Change, Memory>
    requires may { MayPlan row.now }
    requires start { start ≤ MAX_MOMENT }
    requires unbooked { IsUnbooked row.now.key (R.seen book.now) }
    ensures { IfOk result (λ change. change ≡ unless_objected_at config.now.name (R.latest book.now) (planned_proposal row.now start tool)
        (objection config.now.installed (R.in_force book.now) (R.seen book.now) (R.at book.now) (planned_proposal row.now start tool))) }
{
    let proposal = planned_proposal(alloc, row, start, tool)?;
    match objection(alloc, book, config.installed.as_slice(), &proposal)? {
        Some(denial) => {
            let key = proposal.key;
            drop(proposal);
            object(alloc, config, key, denial)
        }
        None => Ok(accepted(proposal, book.epoch())),
    }
}

fn accepted(proposal: Proposal, epoch: u32) -> Change
    ensures { result ≡ change.Planned proposal.key proposal.start proposal.tool epoch }
{
    let Proposal {
        key,
        tool,
        start,
        ..
    } = proposal;
    Change::Planned {
        key,
        start,
        tool,
        epoch,
    }
}

fn object(alloc: Global, config: &Config, key: RunKey, denial: Denial) -> Result<Change, Memory>
    ensures { IfOk result (λ c. c ≡ change.Closed key (why.Nonstart (cause.Denied config.now.name denial))) }
{
    let name = config.name.copy(alloc)?;
    Ok(unplanned(key, Cause::Denied(name, denial)))
}

fn planned_proposal(
    alloc: Global,
    row: &RunRow,
    start: Moment,
    tool: Text,
) -> Result<Proposal, Memory>
    ensures { IfOk result (λ proposal. proposal ≡ planned_proposal row.now start tool) }
{
    let asker = row.asker.copy(alloc)?;
    Ok(Proposal {
        key: row.key,
        test: row.test.copy(alloc)?,
        tool,
        start,
        priority: row.priority,
        asker,
    })
}
