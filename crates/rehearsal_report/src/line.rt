//! What a report says after a line of a script, where it is said at once.
ghost use Rattle.std.specs.Prelude.{◌≡◌, ◌++◌, codes, OnOk};
ghost use Rattle.rehearsal_report.specs.Line.{archive_text, booking_text, limits_text, line_text, response_text};

use crate::message::end_line;
use crate::report::ReportText;
use crate::shown::{ShownArchive, ShownBooking, ShownLimits};
use host_model::reply::Reply;
use ps_http::message::Response;
use ps_time::memory::Memory;

/// Reports that the line was done, where nothing more is to be said.
pub fn add_ok(report: &mut ReportText, line: u64) -> Result<(), Memory>
    ensures { OnOk result (report.new ≡ report.old ++ line_text line (codes "ok")) }
{
    writeln!(report, "{line} ok")
}

/// Reports one of the fixed words, as `lost`, `heard`, `not in flight`, `nothing due`.
pub fn add_said(report: &mut ReportText, line: u64, said: &str) -> Result<(), Memory>
    ensures { OnOk result (report.new ≡ report.old ++ line_text line said.now) }
{
    writeln!(report, "{line} {said}")
}

/// Reports what a host replied to a booking.
pub fn add_booking(report: &mut ReportText, line: u64, reply: &Reply) -> Result<(), Memory>
    ensures { OnOk result (report.new ≡ report.old ++ line_text line (booking_text reply.now)) }
{
    let said = ShownBooking(reply);
    writeln!(report, "{line} {said}")
}

/// Reports what a host replied to new limits.
pub fn add_limits(report: &mut ReportText, line: u64, reply: &Reply) -> Result<(), Memory>
    ensures { OnOk result (report.new ≡ report.old ++ line_text line (limits_text reply.now)) }
{
    let said = ShownLimits(reply);
    writeln!(report, "{line} {said}")
}

/// Reports the response to a request, whose body may be any bytes.
pub fn add_response(report: &mut ReportText, line: u64, response: &Response) -> Result<(), Memory>
    ensures { OnOk result (report.new ≡ report.old ++ line_text line (response_text response.now)) }
{
    let status = response.status;
    write!(report, "{line} {status} ")?;
    report.add_bytes(response.body.as_slice())?;
    end_line(report)
}

/// Reports how far an archive has come after an attempt.
pub fn add_archive(report: &mut ReportText, line: u64, reply: &Reply) -> Result<(), Memory>
    ensures { OnOk result (report.new ≡ report.old ++ line_text line (archive_text reply.now)) }
{
    let said = ShownArchive(reply);
    writeln!(report, "{line} {said}")
}
