//! Verdicts, names of states, acknowledgements and states of archives as bytes.
ghost use Rattle.std.specs.Prelude.{IfOk};
ghost use Rattle.value_bytes.specs.Gives.{Gives};
ghost use Rattle.value_bytes.specs.States.{FitsVerdict, verdict_cases};

use crate::coded::{Coded, write_three, write_variant};
use archive_retry::state::ArchiveState;
use ps_time::asker::Verdict;
use ps_time::memory::Memory;
use run_states::answer::Told;
use run_states::state::State;
use run_states::why::What;
use std::alloc::Global;
use value_bytes::fault::CodeFault;
use value_bytes::names::{
    read_state, read_told, read_what, state_number, told_number, what_number,
};

fn read_verdict(alloc: Global, number: u8, bytes: &[u8]) -> Result<(Verdict, &[u8]), CodeFault>
    ensures value { Gives (λ x. (x.0, x.1.now)) result (verdict_cases number bytes.now) }
    ensures fits { IfOk result (λ x. FitsVerdict x.0) }
{
    match number {
        0 => match u32::read(alloc, bytes) {
            Ok((place, rest)) => Ok((Verdict::Permitted(place), rest)),
            Err(fault) => Err(fault),
        },
        1 => match u32::read(alloc, bytes) {
            Ok((place, rest)) => Ok((Verdict::Stopped(place), rest)),
            Err(fault) => Err(fault),
        },
        2 => Ok((Verdict::Exhausted, bytes)),
        3 => match i16::read(alloc, bytes) {
            Ok((ceiling, rest)) => Ok((Verdict::AboveCeiling(ceiling), rest)),
            Err(fault) => Err(fault),
        },
        _ => Err(CodeFault::NoValue),
    }
}

impl Coded for Verdict {
    ghost use Rattle.value_bytes.specs.States.{verdict, verdict_is};

    ghost codec = { verdict };

    fn write(&self, alloc: Global, out: &mut Vec<u8>) -> Result<(), Memory> {
        match self {
            Verdict::Permitted(place) => write_variant(alloc, 0, place, out),
            Verdict::Stopped(place) => write_variant(alloc, 1, place, out),
            Verdict::Exhausted => 2u8.write(alloc, out),
            Verdict::AboveCeiling(ceiling) => write_variant(alloc, 3, ceiling, out),
        }
    }

    fn read(alloc: Global, bytes: &[u8]) -> Result<(Verdict, &[u8]), CodeFault> {
        let (number, rest) = u8::read(alloc, bytes)?;
        read_verdict(alloc, number, rest)
    }

    ghost laws = { verdict_is };
}

impl Coded for What {
    ghost use Rattle.value_bytes.specs.States.{what, what_is};

    ghost codec = { what };

    fn write(&self, alloc: Global, out: &mut Vec<u8>) -> Result<(), Memory> {
        what_number(*self).write(alloc, out)
    }

    fn read(alloc: Global, bytes: &[u8]) -> Result<(What, &[u8]), CodeFault> {
        let (number, rest) = u8::read(alloc, bytes)?;
        read_what(number, rest)
    }

    ghost laws = { what_is };
}

impl Coded for State {
    ghost use Rattle.value_bytes.specs.States.{state, state_is};

    ghost codec = { state };

    fn write(&self, alloc: Global, out: &mut Vec<u8>) -> Result<(), Memory> {
        state_number(*self).write(alloc, out)
    }

    fn read(alloc: Global, bytes: &[u8]) -> Result<(State, &[u8]), CodeFault> {
        let (number, rest) = u8::read(alloc, bytes)?;
        read_state(number, rest)
    }

    ghost laws = { state_is };
}

impl Coded for Told {
    ghost use Rattle.value_bytes.specs.States.{told, told_is};

    ghost codec = { told };

    fn write(&self, alloc: Global, out: &mut Vec<u8>) -> Result<(), Memory> {
        told_number(*self).write(alloc, out)
    }

    fn read(alloc: Global, bytes: &[u8]) -> Result<(Told, &[u8]), CodeFault> {
        let (number, rest) = u8::read(alloc, bytes)?;
        read_told(number, rest)
    }

    ghost laws = { told_is };
}

impl Coded for ArchiveState {
    ghost use Rattle.value_bytes.specs.States.{archive_state, archive_state_is};

    ghost codec = { archive_state };

    fn write(&self, alloc: Global, out: &mut Vec<u8>) -> Result<(), Memory> {
        write_three(alloc, &self.tried, &self.next, &self.done, out)
    }

    fn read(alloc: Global, bytes: &[u8]) -> Result<(ArchiveState, &[u8]), CodeFault> {
        let ((tried, (next, done)), rest) = <(u32, (Option<u64>, bool))>::read(alloc, bytes)?;
        let value = ArchiveState { tried, next, done };
        Ok((value, rest))
    }

    ghost laws = { archive_state_is };
}
