//! Changes and records as bytes.
ghost use Rattle.std.specs.Prelude.{◌++◌, ◌∷◌, ◌≡◌, IfOk, OnOk};
ghost use Rattle.value_bytes.specs.Changes.{FitsChange, WritableChange, accepted, accepted_of, asked, asked_of, change_cases, last_cases, later_cases, parts_accepted, parts_asked};
ghost use Rattle.value_bytes.specs.Gives.{Gives};
ghost use Rattle.value_bytes.specs.Reading.{made_at};
ghost use Rattle.host_model.specs.declared.change.Change.{Change};

use crate::coded::{
    Coded, write_three, write_two, write_variant, write_variant_2, write_variant_3, write_variant_4,
};
use archive_retry::state::ArchiveState;
use host_model::change::{Change, Changes};
use host_model::task_row::TaskRow;
use limit_apply::limits::Limits;
use plugin_core::test_spec::TestSpec;
use ps_time::asker::Asker;
use ps_time::boxed::Boxed;
use ps_time::interval::Window;
use ps_time::items::Items;
use ps_time::key::RunKey;
use ps_time::memory::Memory;
use ps_time::text::Text;
use run_states::answer::{FreeAnswer, Told};
use run_states::proposal::{Proposal, Question};
use run_states::why::Why;
use std::alloc::Global;
use value_bytes::fault::CodeFault;

type AcceptedParts = (
    (RunKey, (TestSpec, Text)),
    ((u64, (i16, Items<Text>)), (Asker, u32)),
);

type AskedParts = ((RunKey, (TestSpec, i16)), (Items<Text>, (Asker, Window)));

fn write_accepted_parts(
    alloc: Global,
    proposal: &Proposal,
    participants: &Items<Text>,
    epoch: u32,
    out: &mut Vec<u8>,
) -> Result<(), Memory>
    requires { WritableChange (Change.Accepted proposal.now participants.now epoch) }
    ensures code { OnOk result (out.new.items ≡ out.old.items ++ accepted.code (parts_accepted proposal.now participants.now epoch)) }
    ensures fits { OnOk result (FitsChange (Change.Accepted proposal.now participants.now epoch)) }
{
    write_three(alloc, &proposal.key, &proposal.test, &proposal.tool, out)?;
    write_three(
        alloc,
        &proposal.start,
        &proposal.priority,
        participants,
        out,
    )?;
    write_two(alloc, &proposal.asker, &epoch, out)
}

fn write_accepted(
    alloc: Global,
    proposal: &Proposal,
    participants: &Items<Text>,
    epoch: u32,
    out: &mut Vec<u8>,
) -> Result<(), Memory>
    requires { WritableChange (Change.Accepted proposal.now participants.now epoch) }
    ensures code { OnOk result (out.new.items ≡ out.old.items ++ 3 ∷ accepted.code (parts_accepted proposal.now participants.now epoch)) }
    ensures fits { OnOk result (FitsChange (Change.Accepted proposal.now participants.now epoch)) }
{
    out.push(3)?;
    write_accepted_parts(alloc, proposal, participants, epoch, out)
}

fn read_accepted(alloc: Global, bytes: &[u8]) -> Result<(Change, &[u8]), CodeFault>
    ensures value { Gives (λ x. (x.0, x.1.now)) result (made_at accepted_of accepted.read bytes.now) }
    ensures fits { IfOk result (λ x. FitsChange x.0) }
{
    let (((key, (test, tool)), ((start, (priority, participants)), (asker, epoch))), rest) =
        AcceptedParts::read(alloc, bytes)?;
    let proposal = Proposal {
        key,
        test,
        tool,
        start,
        priority,
        asker,
    };
    Ok((
        Change::Accepted {
            proposal: Boxed::new(alloc, proposal)?,
            participants,
            epoch,
        },
        rest,
    ))
}

fn write_asked_parts(
    alloc: Global,
    question: &Question,
    participants: &Items<Text>,
    asker: &Asker,
    out: &mut Vec<u8>,
) -> Result<(), Memory>
    requires { WritableChange (Change.Asked question.now participants.now asker.now) }
    ensures code { OnOk result (out.new.items ≡ out.old.items ++ asked.code (parts_asked question.now participants.now asker.now)) }
    ensures fits { OnOk result (FitsChange (Change.Asked question.now participants.now asker.now)) }
{
    write_three(
        alloc,
        &question.key,
        &question.test,
        &question.priority,
        out,
    )?;
    write_three(alloc, participants, asker, &question.window, out)
}

fn write_asked(
    alloc: Global,
    question: &Question,
    participants: &Items<Text>,
    asker: &Asker,
    out: &mut Vec<u8>,
) -> Result<(), Memory>
    requires { WritableChange (Change.Asked question.now participants.now asker.now) }
    ensures code { OnOk result (out.new.items ≡ out.old.items ++ 4 ∷ asked.code (parts_asked question.now participants.now asker.now)) }
    ensures fits { OnOk result (FitsChange (Change.Asked question.now participants.now asker.now)) }
{
    out.push(4)?;
    write_asked_parts(alloc, question, participants, asker, out)
}

fn read_asked(alloc: Global, bytes: &[u8]) -> Result<(Change, &[u8]), CodeFault>
    ensures value { Gives (λ x. (x.0, x.1.now)) result (made_at asked_of asked.read bytes.now) }
    ensures fits { IfOk result (λ x. FitsChange x.0) }
{
    let (((key, (test, priority)), (participants, (asker, window))), rest) = AskedParts::read(
        alloc, bytes,
    )?;
    let question = Question {
        key,
        test,
        priority,
        window,
    };
    Ok((
        Change::Asked {
            question: Boxed::new(alloc, question)?,
            participants,
            asker,
        },
        rest,
    ))
}

// The arms hand a fault on by a `match`, since a `?` in each would take the prover a third longer.
/// The change of this tag with whose fields the bytes begin, and the bytes behind them.
pub fn read_fields(alloc: Global, number: u8, bytes: &[u8]) -> Result<(Change, &[u8]), CodeFault>
    ensures value { Gives (λ x. (x.0, x.1.now)) result (change_cases number bytes.now) }
    ensures fits { IfOk result (λ x. FitsChange x.0) }
{
    match number {
        1 => match Boxed::<TaskRow>::read(alloc, bytes) {
            Ok((row, rest)) => Ok((Change::Posted(row), rest)),
            Err(fault) => Err(fault),
        },
        2 => match u32::read(alloc, bytes) {
            Ok((serial, rest)) => Ok((Change::TaskClosed(serial), rest)),
            Err(fault) => Err(fault),
        },
        3 => read_accepted(alloc, bytes),
        4 => read_asked(alloc, bytes),
        5 => match <(RunKey, (u64, (Text, u32)))>::read(alloc, bytes) {
            Ok(((key, (start, (tool, epoch))), rest)) => Ok((
                Change::Planned {
                    key,
                    start,
                    tool,
                    epoch,
                },
                rest,
            )),
            Err(fault) => Err(fault),
        },
        6 => match RunKey::read(alloc, bytes) {
            Ok((key, rest)) => Ok((Change::Confirmed(key), rest)),
            Err(fault) => Err(fault),
        },
        _ => read_later_fields(alloc, number, bytes),
    }
}

fn read_later_fields(alloc: Global, number: u8, bytes: &[u8]) -> Result<(Change, &[u8]), CodeFault>
    ensures value { Gives (λ x. (x.0, x.1.now)) result (later_cases number bytes.now) }
    ensures fits { IfOk result (λ x. FitsChange x.0) }
{
    match number {
        7 => match <(RunKey, Why)>::read(alloc, bytes) {
            Ok(((key, why), rest)) => Ok((Change::Closed { key, why }, rest)),
            Err(fault) => Err(fault),
        },
        8 => match RunKey::read(alloc, bytes) {
            Ok((key, rest)) => Ok((Change::Started(key), rest)),
            Err(fault) => Err(fault),
        },
        9 => match <(RunKey, (bool, Text))>::read(alloc, bytes) {
            Ok(((key, (good, body)), rest)) => Ok((Change::Ended { key, good, body }, rest)),
            Err(fault) => Err(fault),
        },
        10 => match <(RunKey, (u8, FreeAnswer))>::read(alloc, bytes) {
            Ok(((key, (place, answer)), rest)) => Ok((
                Change::FreeHeard { key, place, answer },
                rest,
            )),
            Err(fault) => Err(fault),
        },
        11 => match <(RunKey, u8)>::read(alloc, bytes) {
            Ok(((key, place), rest)) => Ok((Change::AcceptHeard { key, place }, rest)),
            Err(fault) => Err(fault),
        },
        12 => match <(RunKey, (u8, Told))>::read(alloc, bytes) {
            Ok(((key, (place, told)), rest)) => Ok((Change::Told { key, place, told }, rest)),
            Err(fault) => Err(fault),
        },
        _ => read_last_fields(alloc, number, bytes),
    }
}

fn read_last_fields(alloc: Global, number: u8, bytes: &[u8]) -> Result<(Change, &[u8]), CodeFault>
    ensures value { Gives (λ x. (x.0, x.1.now)) result (last_cases number bytes.now) }
    ensures fits { IfOk result (λ x. FitsChange x.0) }
{
    match number {
        13 => match RunKey::read(alloc, bytes) {
            Ok((key, rest)) => Ok((Change::MaterialHeard(key), rest)),
            Err(fault) => Err(fault),
        },
        14 => match <(RunKey, (u8, Option<Text>))>::read(alloc, bytes) {
            Ok(((key, (place, result)), rest)) => Ok((
                Change::ResultHeard { key, place, result },
                rest,
            )),
            Err(fault) => Err(fault),
        },
        15 => match <(RunKey, Text)>::read(alloc, bytes) {
            Ok(((key, body), rest)) => Ok((Change::Merged { key, body }, rest)),
            Err(fault) => Err(fault),
        },
        16 => match <(RunKey, (u8, ArchiveState))>::read(alloc, bytes) {
            Ok(((key, (index, state)), rest)) => Ok((Change::Tried { key, index, state }, rest)),
            Err(fault) => Err(fault),
        },
        17 => match Boxed::<Limits>::read(alloc, bytes) {
            Ok((limits, rest)) => Ok((Change::LimitsSet(limits), rest)),
            Err(fault) => Err(fault),
        },
        18 => match RunKey::read(alloc, bytes) {
            Ok((key, rest)) => Ok((Change::Purged(key), rest)),
            Err(fault) => Err(fault),
        },
        _ => Err(CodeFault::NoValue),
    }
}

impl Coded for Change {
    ghost use Rattle.value_bytes.specs.Changes.{change, change_is};

    ghost codec = { change };

    fn write(&self, alloc: Global, out: &mut Vec<u8>) -> Result<(), Memory> {
        match self {
            Change::Posted(row) => write_variant(alloc, 1, row, out),
            Change::TaskClosed(serial) => write_variant(alloc, 2, serial, out),
            Change::Accepted {
                proposal,
                participants,
                epoch,
            } => write_accepted(alloc, proposal.value(), participants, *epoch, out),
            Change::Asked {
                question,
                participants,
                asker,
            } => write_asked(alloc, question.value(), participants, asker, out),
            Change::Planned {
                key,
                start,
                tool,
                epoch,
            } => write_variant_4(alloc, 5, key, start, tool, epoch, out),
            Change::Confirmed(key) => write_variant(alloc, 6, key, out),
            Change::Closed { key, why } => write_variant_2(alloc, 7, key, why, out),
            Change::Started(key) => write_variant(alloc, 8, key, out),
            Change::Ended { key, good, body } => write_variant_3(alloc, 9, key, good, body, out),
            Change::FreeHeard { key, place, answer } => write_variant_3(
                alloc, 10, key, place, answer, out,
            ),
            Change::AcceptHeard { key, place } => write_variant_2(alloc, 11, key, place, out),
            Change::Told { key, place, told } => write_variant_3(alloc, 12, key, place, told, out),
            Change::MaterialHeard(key) => write_variant(alloc, 13, key, out),
            Change::ResultHeard { key, place, result } => write_variant_3(
                alloc, 14, key, place, result, out,
            ),
            Change::Merged { key, body } => write_variant_2(alloc, 15, key, body, out),
            Change::Tried { key, index, state } => write_variant_3(
                alloc, 16, key, index, state, out,
            ),
            Change::LimitsSet(limits) => write_variant(alloc, 17, limits, out),
            Change::Purged(key) => write_variant(alloc, 18, key, out),
        }
    }

    fn read(alloc: Global, bytes: &[u8]) -> Result<(Change, &[u8]), CodeFault> {
        let (number, rest) = u8::read(alloc, bytes)?;
        read_fields(alloc, number, rest)
    }

    ghost laws = { change_is };
}

impl Coded for Changes {
    ghost use Rattle.value_bytes.specs.Changes.{changes, changes_is};

    ghost codec = { changes };

    fn write(&self, alloc: Global, out: &mut Vec<u8>) -> Result<(), Memory> {
        write_two(alloc, &self.moment, &self.list, out)
    }

    fn read(alloc: Global, bytes: &[u8]) -> Result<(Changes, &[u8]), CodeFault> {
        let ((moment, list), rest) = <(u64, Items<Change>)>::read(alloc, bytes)?;
        let value = Changes { moment, list };
        Ok((value, rest))
    }

    ghost laws = { changes_is };
}
