//! What every input of a host is answered, and changes.
ghost use Rattle.std.specs.Prelude.{◌≡◌, ◌≤◌, IfOk};
ghost use Rattle.ps_time.specs.declared.moment.TheConstants.{MAX_MOMENT};
ghost use Rattle.host_model.specs.Apply.{settled};
ghost use Rattle.host_model.specs.Book.{limits_in};
ghost use Rattle.host_model.specs.Conditions.{IsConfig, IsInput};
ghost use Rattle.host_model.specs.Lawful.{Lawful};
ghost use Rattle.host_model.specs.Step.{outcome_of, step};
ghost use Rattle.host_core.specs.ReadOff.{IsReadOff};

use crate::opening::open_host;
use host_inputs::input::answer_input;
use host_model::config::Config;
use host_model::input::Input;
use host_model::reply::Outcome;
use host_pages::page::show;
use host_turns::book::HostBook;
use host_turns::draft::Draft;
use host_turns::turn::turn;
use ps_time::memory::Memory;
use ps_time::moment::Moment;
use std::alloc::Global;

/// What a step of the host comes to at a clock, in seconds since 1970 UTC: its reply, and what changes, at the greater of
/// the clock and the book's latest moment. The book stays as it is.
pub fn decide(
    alloc: Global,
    config: &Config,
    book: &HostBook,
    clock: Moment,
    input: Input,
) -> Result<Outcome, Memory>
    requires number { book.now.number ≡ config.now.number }
    requires config { IsConfig config.now }
    requires clock { clock ≤ MAX_MOMENT }
    requires bounds { IsInput config.now input }
    ensures { IfOk result (λ o. o ≡ step config.now book.now.book clock input) }
{
    let moment = book.moment().max(clock);
    match input {
        Input::Turn => turn(alloc, config, book, moment),
        input => read_off(alloc, config, book, moment, input),
    }
}

// Of an input whose changes are all read off the settled book.
fn read_off(
    alloc: Global,
    config: &Config,
    book: &HostBook,
    moment: Moment,
    input: Input,
) -> Result<Outcome, Memory>
    requires number { book.now.number ≡ config.now.number }
    requires config { IsConfig config.now }
    requires later { book.now.book.moment ≤ moment }
    requires bound { moment ≤ MAX_MOMENT }
    requires bounds { IsInput config.now input }
    requires read { IsReadOff input }
    ensures { IfOk result (λ o. o ≡ outcome_of config.now moment (settled moment book.now.book) input) }
{
    let _known = book.rows();
    match Draft::new(alloc, book, &config.limits, moment) {
        Ok(draft) => answer(alloc, config, &draft, input),
        Err(fault) => {
            drop(input);
            Err(fault)
        }
    }
}

fn answer(
    alloc: Global,
    config: &Config,
    draft: &Draft<'_>,
    input: Input,
) -> Result<Outcome, Memory>
    requires number { draft.now.number ≡ config.now.number }
    requires limits { draft.now.limits ≡ limits_in config.now draft.now.draft.book }
    requires lawful { Lawful config.now.number draft.now.draft.book }
    requires config { IsConfig config.now }
    requires bounds { IsInput config.now input }
    requires read { IsReadOff input }
    ensures { IfOk result (λ o. o ≡ outcome_of config.now draft.now.draft.book.moment draft.now.draft.book input) }
{
    match input {
        Input::View(page) => show(alloc, draft, config, page),
        Input::Open => open_host(alloc, draft, config),
        input => answer_input(alloc, draft, config, input),
    }
}
