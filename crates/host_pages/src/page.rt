//! The pages that a host shows.
ghost use Rattle.std.specs.Prelude.{◌≡◌, ◌++◌, IfOk, OnOk, filter_map, map, option_map};
ghost use Rattle.std.specs.Option.{option_copied};
ghost use Rattle.run_states.specs.Life.{HasMoments};
ghost use Rattle.run_states.specs.Rows.{find_row, IsAscendingRows};
ghost use Rattle.host_model.specs.Book.{find_task};
ghost use Rattle.host_model.specs.Views.{archivers_of, run_view, runs_of, shown, test_view, view_of};
ghost use Rattle.host_model.specs.declared.view.View.TheVariants.{Runs as RunsView, Task as TaskView};
ghost use Rattle.host_inputs.specs.Kept.{book_of};
ghost use Rattle.host_inputs.specs.Runs.{runs_of_task};
ghost use Rattle.host_pages.specs.Walks.{run_at};

use crate::schedule::schedule_lines;
use crate::showing::Showing;
use host_model::config::Config;
use host_model::reply::{Outcome, Reply};
use host_model::task_row::TaskRow;
use host_model::view::{Page, View};
use plugin_core::kind::{class_of_kind, read_kind};
use ps_time::boxed::Boxed;
use ps_time::items::Items;
use ps_time::key::RunKey;
use ps_time::memory::Memory;
use ps_time::text::Text;
use run_states::life::state_name;
use run_states::row::RunRow;
use std::alloc::Global;
use task_spec::task::Archive;

/// What a host answers to who asks for a page, over its book as it is settled at the moment of the step: the page, or that
/// there is no such test, task or run.
pub fn show<R: Showing>(
    alloc: Global,
    book: &R,
    config: &Config,
    page: Page,
) -> Result<Outcome, Memory>
    ensures { IfOk result (λ o. o ≡ shown (view_of config.now (book_of (R.at book.now) (R.seen book.now) (R.kept book.now)) (R.at book.now) page)) }
{
    let view = view_of(alloc, book, config, page)?;
    shown(alloc, view)
}

fn shown(alloc: Global, view: Option<View>) -> Result<Outcome, Memory>
    ensures { IfOk result (λ o. o ≡ shown view) }
{
    let reply = match view {
        Some(view) => Reply::View(Boxed::new(alloc, view)?),
        None => Reply::NotFound,
    };
    Ok(Outcome {
        reply,
        list: Items::new(alloc),
    })
}

fn view_of<R: Showing>(
    alloc: Global,
    book: &R,
    config: &Config,
    page: Page,
) -> Result<Option<View>, Memory>
    ensures { IfOk result (λ view. view ≡ view_of config.now (book_of (R.at book.now) (R.seen book.now) (R.kept book.now)) (R.at book.now) page) }
{
    match page {
        Page::Home => Ok(Some(View::Home)),
        Page::Clock => Ok(Some(View::Clock(book.moment()))),
        Page::Tests => Ok(Some(View::Tests)),
        Page::Tools => Ok(Some(View::Tools)),
        Page::Archivers => Ok(Some(View::Archivers)),
        Page::Test(name) => Ok(test_view(name)),
        Page::Tasks => Ok(Some(View::Tasks(serials_of(alloc, book.tasks())?))),
        Page::Task(serial) => copied(alloc, book.task(serial)),
        Page::Runs(serial) => runs_view(alloc, book, config.number, serial),
        Page::Run(key) => run_view(alloc, book, key),
        Page::Schedule { start, end } => Ok(Some(View::Schedule(schedule_lines(
            alloc, book, start, end,
        )?))),
    }
}

fn test_view(name: Text) -> Option<View>
    ensures { result ≡ test_view name }
{
    match read_kind(name.as_str()) {
        Some(kind) => Some(View::Test {
            name,
            class: class_of_kind(kind),
        }),
        None => None,
    }
}

fn serials_of(alloc: Global, tasks: &[TaskRow]) -> Result<Items<u32>, Memory>
    ensures { IfOk result (λ serials. serials ≡ map (λ t. t.serial) tasks.now) }
{
    let mut serials = Items::new(alloc);
    for task in tasks {
        serials.push(task.serial)?;
    }
    Ok(serials)
}

fn copied(alloc: Global, task: Option<&TaskRow>) -> Result<Option<View>, Memory>
    ensures { IfOk result (λ view. view ≡ option_map TaskView (option_copied task.entry)) }
{
    match task {
        Some(task) => Ok(Some(View::Task(task.copy(alloc)?))),
        None => Ok(None),
    }
}

fn runs_view<R: Showing>(
    alloc: Global,
    book: &R,
    lead: u16,
    serial: u32,
) -> Result<Option<View>, Memory>
    ensures { IfOk result (λ view. view ≡ option_map (λ t. RunsView (runs_of lead (R.seen book.now) serial)) (find_task (R.kept book.now).tasks serial)) }
{
    match book.task(serial) {
        Some(_) => Ok(Some(View::Runs(runs_of(alloc, book, lead, serial)?))),
        None => Ok(None),
    }
}

fn runs_of<R: Showing>(
    alloc: Global,
    book: &R,
    lead: u16,
    serial: u32,
) -> Result<Items<RunKey>, Memory>
    ensures { IfOk result (λ runs. runs ≡ runs_of lead (R.seen book.now) serial) }
{
    let mut runs = Items::new(alloc);
    add_runs(book, lead, serial, &mut runs)?;
    Ok(runs)
}

// Adds those of the task's runs that have an interval: a walk from one to the next, which looks at no other row.
fn add_runs<R: Showing>(
    book: &R,
    lead: u16,
    serial: u32,
    runs: &mut Items<RunKey>,
) -> Result<(), Memory>
    ensures list { OnOk result (runs.new ≡ runs.old ++ filter_map (run_at (R.seen book.now)) (runs_of_task lead serial (R.seen book.now))) }
    ensures ascending { IsAscendingRows (R.seen book.now) }
{
    let mut last = None;
    while let Some(key) = book.next_of_task(lead, serial, last) {
        if let Some(shown) = run_at(book, key) {
            runs.push(shown)?;
        }
        last = Some(key);
    }
    Ok(())
}

fn run_at<R: Showing>(book: &R, key: RunKey) -> Option<RunKey>
    ensures { result ≡ run_at (R.seen book.now) key }
{
    let row = book.find(key)?;
    if row.interval.is_some() {
        Some(row.key)
    } else {
        None
    }
}

fn run_view<R: Showing>(alloc: Global, book: &R, key: RunKey) -> Result<Option<View>, Memory>
    ensures { IfOk result (λ view. view ≡ option_map (run_view (book_of (R.at book.now) (R.seen book.now) (R.kept book.now)) (R.at book.now)) (find_row (R.seen book.now) key)) }
{
    match book.find(key) {
        Some(row) => Ok(Some(shown_run(alloc, book, row)?)),
        None => Ok(None),
    }
}

fn shown_run<R: Showing>(alloc: Global, book: &R, row: &RunRow) -> Result<View, Memory>
    requires { HasMoments row.now }
    ensures { IfOk result (λ view. view ≡ run_view (book_of (R.at book.now) (R.seen book.now) (R.kept book.now)) (R.at book.now) row.now) }
{
    let archivers = archivers_of(alloc, book, row)?;
    let state = state_name(row, book.moment());
    Ok(View::Run {
        row: row.copy(alloc)?,
        archivers,
        state,
    })
}

fn archivers_of<R: Showing>(alloc: Global, book: &R, row: &RunRow) -> Result<Items<Text>, Memory>
    ensures { IfOk result (λ names. names ≡ archivers_of (book_of (R.at book.now) (R.seen book.now) (R.kept book.now)) row.now) }
{
    if row.merged.is_none() {
        return Ok(Items::new(alloc));
    }
    match book.task(row.key.task) {
        Some(task) => names_of(alloc, task.task.archives.as_slice()),
        None => Ok(Items::new(alloc)),
    }
}

fn names_of(alloc: Global, archives: &[Archive]) -> Result<Items<Text>, Memory>
    ensures { IfOk result (λ names. names ≡ map (λ a. a.archiver) archives.now) }
{
    let mut names = Items::new(alloc);
    for archive in archives {
        names.push(archive.archiver.copy(alloc)?)?;
    }
    Ok(names)
}
