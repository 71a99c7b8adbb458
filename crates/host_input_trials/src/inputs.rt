//! Lines of a script as inputs. The words are these:
//!
//! - `book START`, `turn`, `limits nobody`, `limits everybody`;
//! - `post pair`, `post alone` and `cancel SERIAL`, from 10.0.0.9;
//! - `free KEY START`, `propose KEY START`, `confirm KEY` and `drop KEY`, from host b;
//! - `heard KEY free`, `accepted`, `confirmed` or `result`: what host b answers;
//! - `tried KEY`: its first archive has taken the result.
ghost use Rattle.std.specs.Prelude.{◌≡◌, ◌≤◌, IfOk, IfSome};
ghost use Rattle.ps_time.specs.declared.moment.TheConstants.{MAX_MOMENT};
ghost use Rattle.host_model.specs.Conditions.{IsInput};
ghost use Rattle.host_model.specs.Propose.{lead_name};

use crate::answers::a_hearing;
use crate::booking::a_booking;
use crate::fault::LineFault;
use crate::given::{
    a_key, a_moment, a_number, a_test, a_text, a_tree, cut, limits_of, line_fault, task_text,
};
use host_inputs::participant::lead_name;
use host_model::config::Config;
use host_model::input::Input;
use plugin_core::write_test::law_test_text;
use ps_time::asker::Asker;
use ps_time::interval::Window;
use ps_time::key::RunKey;
use ps_time::moment::Moment;
use ps_time::text::Text;
use run_states::proposal::{Proposal, Question};
use std::alloc::Global;
use task_spec::task::Task;
use task_spec::write_task::law_task_text;

// The number of host b, and the address from which tasks are posted.
const PEER: u16 = 2;

static REQUESTER: &str = "10.0.0.9";

fn a_run(config: &Config, rest: &str) -> Result<Input, LineFault>
    ensures bounds { IfOk result (IsInput config.now) }
{
    Ok(a_booking(a_moment(rest)?))
}

fn new_limits(alloc: Global, config: &Config, rest: &str) -> Result<Input, LineFault>
    ensures bounds { IfOk result (IsInput config.now) }
{
    Ok(Input::Limits(limits_of(alloc, rest)?))
}

fn a_post(alloc: Global, config: &Config, clock: Moment, rest: &str) -> Result<Input, LineFault>
    requires { clock ≤ MAX_MOMENT }
    ensures bounds { IfOk result (IsInput config.now) }
{
    law_task_text();
    let requester = a_text(alloc, REQUESTER)?;
    match Task::read(
        alloc,
        a_tree(alloc, task_text(rest))?,
        clock,
        config.name.as_str(),
    ) {
        Ok(task) => Ok(Input::Post { task, requester }),
        Err(fault) => Err(line_fault(fault)),
    }
}

fn a_canceling(alloc: Global, config: &Config, rest: &str) -> Result<Input, LineFault>
    ensures bounds { IfOk result (IsInput config.now) }
{
    let task = a_number(rest)?;
    let requester = a_text(alloc, REQUESTER)?;
    Ok(Input::Cancel { task, requester })
}

fn a_question(alloc: Global, config: &Config, rest: &str) -> Result<Input, LineFault>
    ensures bounds { IfOk result (IsInput config.now) }
{
    law_test_text();
    let (key, start) = cut(rest);
    let key = a_key(key)?;
    let start = a_moment(start)?;
    let window = Window {
        first: start,
        last: start,
    };
    Ok(Input::Free {
        sender: PEER,
        question: Question {
            key,
            test: a_test(alloc)?,
            priority: 0,
            window,
        },
    })
}

// The name of the lead of a key.
fn server(alloc: Global, config: &Config, key: RunKey) -> Result<Text, LineFault>
    ensures name { IfOk result (λ server. IfSome (lead_name config.now 2 key) (λ lead. server ≡ lead)) }
{
    match lead_name(config, PEER, key) {
        Some(lead) => a_text(alloc, lead.as_str()),
        None => a_text(alloc, "b"),
    }
}

fn an_asker(alloc: Global, config: &Config, key: RunKey) -> Result<Asker, LineFault>
    ensures server { IfOk result (λ asker. IfSome (lead_name config.now 2 key) (λ lead. asker.server ≡ lead)) }
{
    let server = server(alloc, config, key)?;
    let requester = a_text(alloc, REQUESTER)?;
    Ok(Asker { requester, server })
}

fn a_proposal(alloc: Global, config: &Config, rest: &str) -> Result<Input, LineFault>
    ensures bounds { IfOk result (IsInput config.now) }
{
    law_test_text();
    let (key, start) = cut(rest);
    let key = a_key(key)?;
    let start = a_moment(start)?;
    let test = a_test(alloc)?;
    let asker = an_asker(alloc, config, key)?;
    let tool = a_text(alloc, "sleep")?;
    Ok(Input::Propose {
        sender: PEER,
        proposal: Proposal {
            key,
            test,
            tool,
            start,
            priority: 0,
            asker,
        },
    })
}

fn a_message(config: &Config, word: &str, rest: &str) -> Result<Input, LineFault>
    ensures bounds { IfOk result (IsInput config.now) }
{
    let key = a_key(rest)?;
    match word {
        "confirm" => Ok(Input::Confirm { sender: PEER, key }),
        "drop" => Ok(Input::Drop { sender: PEER, key }),
        "tried" => Ok(Input::Tried {
            key,
            index: 0,
            good: true,
            retry: None,
        }),
        _ => Err(LineFault::SaysNothing),
    }
}

/// What a host is asked by a word and what stands behind it, at a clock in seconds since 1970 UTC.
pub fn an_input(
    alloc: Global,
    config: &Config,
    clock: Moment,
    asked: &str,
) -> Result<Input, LineFault>
    requires { clock ≤ MAX_MOMENT }
    ensures bounds { IfOk result (IsInput config.now) }
{
    let (word, rest) = cut(asked);
    match word {
        "turn" => Ok(Input::Turn),
        "book" => a_run(config, rest),
        "limits" => new_limits(alloc, config, rest),
        "post" => a_post(alloc, config, clock, rest),
        "cancel" => a_canceling(alloc, config, rest),
        "free" => a_question(alloc, config, rest),
        "propose" => a_proposal(alloc, config, rest),
        "heard" => a_hearing(alloc, config, clock, rest),
        _ => a_message(config, word, rest),
    }
}
