//! Lines of a report that tell of messages: a front, a piece for each message that was sent, and the line feed.
ghost use Rattle.std.specs.Prelude.{◌≡◌, ◌++◌, codes, OnOk};
ghost use Rattle.std.specs.Fmt.{decimal};
ghost use Rattle.rehearsal_report.specs.Line.{changes_text, order_kind, sent_text};

use crate::report::ReportText;
use crate::shown::ShownChanges;
use host_model::order::OrderBody;
use host_model::reply::Reply;
use ps_time::memory::Memory;

/// Begins the line of a turn.
pub fn begin_turn(report: &mut ReportText, line: u64, reply: &Reply) -> Result<(), Memory>
    ensures { OnOk result (report.new ≡ report.old ++ (decimal line ++ codes " " ++ changes_text reply.now)) }
{
    let said = ShownChanges(reply);
    write!(report, "{line} {said}")
}

/// Begins the line of a request that was delivered, with the status of its response.
pub fn begin_status(report: &mut ReportText, line: u64, status: u16) -> Result<(), Memory>
    ensures { OnOk result (report.new ≡ report.old ++ (decimal line ++ codes " " ++ decimal status)) }
{
    write!(report, "{line} {status}")
}

/// Adds a message that was sent, by its number, to a line that has begun.
pub fn add_sent(
    report: &mut ReportText,
    message: u64,
    from: &str,
    to: &str,
    kind: &str,
) -> Result<(), Memory>
    ensures { OnOk result (report.new ≡ report.old ++ sent_text message from.now to.now kind.now) }
{
    write!(report, " {message}={from}>{to}:{kind}")
}

/// Ends a line that has begun.
pub fn end_line(report: &mut ReportText) -> Result<(), Memory>
    ensures { OnOk result (report.new ≡ report.old ++ codes "\n") }
{
    report.add_bytes(b"\n")
}

/// What a report calls the kind of an order.
pub fn kind_name(body: &OrderBody) -> &'static str
    ensures { result.now ≡ order_kind body.now }
{
    match body {
        OrderBody::Free(_) => "free",
        OrderBody::Propose(_) => "propose",
        OrderBody::Confirm => "confirm",
        OrderBody::Cancel => "cancel",
        OrderBody::Material(_) => "material",
        OrderBody::Result => "result",
    }
}
