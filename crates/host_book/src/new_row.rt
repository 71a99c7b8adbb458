//! The rows that changes add, and what a run that is accepted reserves.
ghost use Rattle.std.specs.Prelude.{◌≡◌, ◌≤◌, []};
ghost use Rattle.ps_time.specs.Span.{span_of};
ghost use Rattle.ps_time.specs.declared.moment.TheConstants.{MAX_LENGTH, MAX_MOMENT};
ghost use Rattle.plugin_core.specs.TestSpec.{test_length};
ghost use Rattle.host_model.specs.NewRow.{accepted_row, all_unheard, asked_row};
ghost use Rattle.host_book.specs.Reservations.{planned_reservation, reservation_of};

use archive_retry::state::ArchiveState;
use host_timeline::booking::{Booking, firm_from};
use plugin_core::test_spec::{TestSpec, class_of, length_of};
use ps_time::asker::Asker;
use ps_time::interval::Interval;
use ps_time::items::Items;
use ps_time::moment::Moment;
use ps_time::text::Text;
use run_states::answer::Other;
use run_states::proposal::{Proposal, Question};
use run_states::row::RunRow;

/// What the run reserves once it is accepted.
pub(crate) fn reservation_of(proposal: &Proposal) -> Booking
    requires start { proposal.now.start ≤ MAX_MOMENT }
    requires length { (1 ≤ test_length proposal.now.test) × (test_length proposal.now.test ≤ MAX_LENGTH) }
    ensures { result ≡ reservation_of proposal.now }
{
    Booking {
        key: proposal.key,
        class: class_of(&proposal.test),
        interval: interval_of(proposal.start, &proposal.test),
        priority: proposal.priority,
        firm_from: firm_from(proposal.start, false),
    }
}

/// What the run of the row reserves once it is planned for this start.
pub(crate) fn planned_reservation(row: &RunRow, start: Moment) -> Booking
    requires start { start ≤ MAX_MOMENT }
    requires length { (1 ≤ test_length row.now.test) × (test_length row.now.test ≤ MAX_LENGTH) }
    ensures { result ≡ planned_reservation start row.now }
{
    Booking {
        key: row.key,
        class: class_of(&row.test),
        interval: interval_of(start, &row.test),
        priority: row.priority,
        firm_from: firm_from(start, false),
    }
}

fn interval_of(start: Moment, test: &TestSpec) -> Interval
    requires start { start ≤ MAX_MOMENT }
    requires length { (1 ≤ test_length test.now) × (test_length test.now ≤ MAX_LENGTH) }
    ensures { result ≡ span_of start (test_length test.now) }
{
    Interval {
        start,
        end: start + length_of(test),
    }
}

/// The row of a run that is accepted at the moment; the lists are empty.
pub(crate) fn accepted_row(
    moment: Moment,
    proposal: Proposal,
    participants: Items<Text>,
    others: Items<Other>,
    archives: Items<ArchiveState>,
) -> RunRow
    requires start { proposal.start ≤ MAX_MOMENT }
    requires length { (1 ≤ test_length proposal.test) × (test_length proposal.test ≤ MAX_LENGTH) }
    requires lists { (others ≡ []) × (archives ≡ []) }
    ensures { result ≡ accepted_row moment proposal participants }
{
    let interval = interval_of(proposal.start, &proposal.test);
    let Proposal {
        key,
        test,
        tool,
        start: _,
        priority,
        asker,
    } = proposal;
    RunRow {
        key,
        test,
        tool: Some(tool),
        interval: Some(interval),
        priority,
        participants,
        asker,
        accepted: Some(moment),
        confirmed: None,
        started: None,
        ended: None,
        material: None,
        closed: None,
        question: None,
        asked: None,
        others,
        merged: None,
        archives,
    }
}

/// The row of a run about which the lead asks at the moment; nothing is known of the others.
pub(crate) fn asked_row(
    moment: Moment,
    question: Question,
    participants: Items<Text>,
    asker: Asker,
    others: Items<Other>,
    archives: Items<ArchiveState>,
) -> RunRow
    requires lists { (others ≡ all_unheard participants) × (archives ≡ []) }
    ensures { result ≡ asked_row moment question participants asker }
{
    let Question {
        key,
        test,
        priority,
        window,
    } = question;
    RunRow {
        key,
        test,
        tool: None,
        interval: None,
        priority,
        participants,
        asker,
        accepted: None,
        confirmed: None,
        started: None,
        ended: None,
        material: None,
        closed: None,
        question: Some(window),
        asked: Some(moment),
        others,
        merged: None,
        archives,
    }
}
