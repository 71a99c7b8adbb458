//! The row that a question brings.
ghost use Rattle.std.specs.Prelude.{◌≡◌, IfOk};
ghost use Rattle.host_model.specs.NewRow.{asked_row};

use host_book::ready::all_unheard;
use ps_time::asker::Asker;
use ps_time::items::Items;
use ps_time::memory::Memory;
use ps_time::moment::Moment;
use ps_time::text::Text;
use run_states::proposal::Question;
use run_states::row::RunRow;
use std::alloc::Global;

/// The row of a run about which the lead asks at the moment, with lists and texts of its own; nothing is known of the others.
pub fn asked_row(
    alloc: Global,
    moment: Moment,
    question: &Question,
    participants: &Items<Text>,
    asker: &Asker,
) -> Result<RunRow, Memory>
    ensures { IfOk result (λ row. row ≡ asked_row moment question.now participants.now asker.now) }
{
    let test = question.test.copy(alloc)?;
    let others = all_unheard(alloc, participants.as_slice())?;
    let participants = participants.copy(alloc)?;
    let asker = asker.copy(alloc)?;
    Ok(RunRow {
        key: question.key,
        test,
        tool: None,
        interval: None,
        priority: question.priority,
        participants,
        asker,
        accepted: None,
        confirmed: None,
        started: None,
        ended: None,
        material: None,
        closed: None,
        question: Some(question.window),
        asked: Some(moment),
        others,
        merged: None,
        archives: Items::new(alloc),
    })
}
