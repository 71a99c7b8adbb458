//! Runs that come: what is accepted, and what is asked about.
ghost use Rattle.std.specs.Prelude.{◌≡◌, ◌↔◌, IsTrue, length};
ghost use Rattle.plugin_core.specs.Bounds.{IsTest};
ghost use Rattle.run_states.specs.LawfulRow.{IsWindow};
ghost use Rattle.host_model.proofs.NewRows.{CanAccept, CanAsk};

use book_check::host_row::find_task;
use host_model::task_row::TaskRow;
use plugin_tool::choice::read_tool;
use ps_time::interval::Window;
use ps_time::key::RunKey;
use ps_time::moment::MAX_MOMENT;
use ps_time::text::Text;
use row_check::parts::{are_participants, has_question};
use run_states::proposal::{Proposal, Question};

// One of this host's own is a booking.
fn may_lead(number: u16, key: RunKey, hosts: &[Text]) -> bool
    ensures { IsTrue result ↔ (key.lead ≡ number → (key.task ≡ 0) × (length hosts.now ≡ 1)) }
{
    if key.lead == number {
        key.task == 0 && hosts.len() == 1
    } else {
        true
    }
}

/// Whether the host with this number may accept the proposal of these participants.
pub(crate) fn can_accept(number: u16, proposal: &Proposal, hosts: &[Text]) -> bool
    requires { IsTest proposal.now.test }
    ensures { IsTrue result ↔ CanAccept number proposal.now hosts.now }
{
    proposal.start <= MAX_MOMENT
        && read_tool(proposal.tool.as_str()).is_some()
        && are_participants(hosts)
        && may_lead(number, proposal.key, hosts)
}

fn is_window(window: Window) -> bool
    ensures { IsTrue result ↔ IsWindow window }
{
    has_question(&Some(window))
}

/// Whether the host with this number may ask these participants about the run, which is of one of these tasks.
pub(crate) fn can_ask(number: u16, tasks: &[TaskRow], question: &Question, hosts: &[Text]) -> bool
    requires { IsTest question.now.test }
    ensures { IsTrue result ↔ CanAsk number tasks.now question.now hosts.now }
{
    is_window(question.window)
        && are_participants(hosts)
        && question.key.lead == number
        && find_task(tasks, question.key.task).is_some()
}
