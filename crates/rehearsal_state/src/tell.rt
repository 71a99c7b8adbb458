//! What a report tells of messages.
ghost use Rattle.std.specs.Prelude.{◌≡◌, ◌+◌, ◌++◌, ◌<◌, ◌≤◌, ◌^◌, OnOk, codes, drop, length};
ghost use Rattle.rehearsal_model.specs.Rehearsal.{message_told, messages_told};

use crate::message::Message;
use ps_time::memory::Memory;
use rehearsal_hosts::hosts::name_of;
use rehearsal_report::message::{add_sent, end_line, kind_name};
use rehearsal_report::report::ReportText;
use rehearsal_script::script::ScriptHost;

fn add_message(
    report: &mut ReportText,
    hosts: &[ScriptHost],
    number: u64,
    position: &Message,
) -> Result<(), Memory>
    ensures { OnOk result (report.new ≡ report.old ++ message_told hosts.now number position.now position.now.reply) }
{
    let asker = name_of(hosts, position.asker);
    let asked = name_of(hosts, position.asked);
    match &position.reply {
        None => add_sent(
            report,
            number,
            asker,
            asked,
            kind_name(&position.order.body),
        ),
        Some(_) => add_sent(report, number, asked, asker, "reply"),
    }
}

/// Tells of all messages but the first so many, and ends the line. So many numbers besides were given before.
pub fn add_messages(
    report: &mut ReportText,
    hosts: &[ScriptHost],
    messages: &[Message],
    before: usize,
    besides: usize,
) -> Result<(), Memory>
    requires before { before ≤ length messages.now }
    requires besides { besides < 2 ^ 63 }
    ensures { OnOk result (report.new ≡ report.old ++ messages_told hosts.now (before + besides + 1) (drop before messages.now) ++ codes "\n") }
{
    for index in before..messages.len() {
        let position = &messages[index];
        add_message(report, hosts, index as u64 + besides as u64 + 1, position)?;
    }
    end_line(report)
}
