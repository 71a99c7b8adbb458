//! Proposals, and why a run was denied or closed, as bytes.
ghost use Rattle.std.specs.Prelude.{IfOk};
ghost use Rattle.value_bytes.specs.Gives.{Gives};
ghost use Rattle.value_bytes.specs.Reasons.{FitsCause, FitsDenial, FitsWhy, cause_cases, denial_cases, why_cases};

use crate::coded::{Coded, write_three, write_two, write_variant, write_variant_2};
use plugin_core::test_spec::TestSpec;
use ps_time::asker::{Asker, Verdict};
use ps_time::boxed::Boxed;
use ps_time::key::RunKey;
use ps_time::memory::Memory;
use ps_time::text::Text;
use run_states::proposal::Proposal;
use run_states::state::State;
use run_states::why::{Cause, Closing, Denial, What, Why};
use std::alloc::Global;
use value_bytes::fault::CodeFault;

type ProposalParts = ((RunKey, (TestSpec, Text)), (u64, (i16, Asker)));

impl Coded for Proposal {
    ghost use Rattle.value_bytes.specs.Reasons.{proposal, proposal_is};

    ghost codec = { proposal };

    fn write(&self, alloc: Global, out: &mut Vec<u8>) -> Result<(), Memory> {
        write_three(alloc, &self.key, &self.test, &self.tool, out)?;
        write_three(alloc, &self.start, &self.priority, &self.asker, out)
    }

    fn read(alloc: Global, bytes: &[u8]) -> Result<(Proposal, &[u8]), CodeFault> {
        let (((key, (test, tool)), (start, (priority, asker))), rest) = ProposalParts::read(
            alloc, bytes,
        )?;
        let value = Proposal {
            key,
            test,
            tool,
            start,
            priority,
            asker,
        };
        Ok((value, rest))
    }

    ghost laws = { proposal_is };
}

fn read_denial(alloc: Global, number: u8, bytes: &[u8]) -> Result<(Denial, &[u8]), CodeFault>
    ensures value { Gives (λ x. (x.0, x.1.now)) result (denial_cases number bytes.now) }
    ensures fits { IfOk result (λ x. FitsDenial x.0) }
{
    match number {
        1 => match Verdict::read(alloc, bytes) {
            Ok((said, rest)) => Ok((Denial::Limits(said), rest)),
            Err(fault) => Err(fault),
        },
        2 => match <(u64, u64)>::read(alloc, bytes) {
            Ok(((moment, start), rest)) => Ok((Denial::Past(moment, start), rest)),
            Err(fault) => Err(fault),
        },
        3 => match RunKey::read(alloc, bytes) {
            Ok((run, rest)) => Ok((Denial::Conflict(run), rest)),
            Err(fault) => Err(fault),
        },
        4 => match <(What, u64)>::read(alloc, bytes) {
            Ok(((full, count), rest)) => Ok((Denial::Full(full, count), rest)),
            Err(fault) => Err(fault),
        },
        5 => match <(Boxed<Proposal>, Boxed<Proposal>)>::read(alloc, bytes) {
            Ok(((kept, sent), rest)) => Ok((Denial::Differs(kept, sent), rest)),
            Err(fault) => Err(fault),
        },
        6 => match State::read(alloc, bytes) {
            Ok((name, rest)) => Ok((Denial::Closed(name), rest)),
            Err(fault) => Err(fault),
        },
        7 => Ok((Denial::NotParticipant, bytes)),
        8 => match Text::read(alloc, bytes) {
            Ok((tool, rest)) => Ok((Denial::NoTool(tool), rest)),
            Err(fault) => Err(fault),
        },
        _ => Err(CodeFault::NoValue),
    }
}

impl Coded for Denial {
    ghost use Rattle.value_bytes.specs.Reasons.{denial, denial_is};

    ghost codec = { denial };

    fn write(&self, alloc: Global, out: &mut Vec<u8>) -> Result<(), Memory> {
        match self {
            Denial::Limits(said) => write_variant(alloc, 1, said, out),
            Denial::Past(moment, start) => write_variant_2(alloc, 2, moment, start, out),
            Denial::Conflict(run) => write_variant(alloc, 3, run, out),
            Denial::Full(full, count) => write_variant_2(alloc, 4, full, count, out),
            Denial::Differs(kept, sent) => write_variant_2(alloc, 5, kept, sent, out),
            Denial::Closed(name) => write_variant(alloc, 6, name, out),
            Denial::NotParticipant => 7u8.write(alloc, out),
            Denial::NoTool(tool) => write_variant(alloc, 8, tool, out),
        }
    }

    fn read(alloc: Global, bytes: &[u8]) -> Result<(Denial, &[u8]), CodeFault> {
        let (number, rest) = u8::read(alloc, bytes)?;
        read_denial(alloc, number, rest)
    }

    ghost laws = { denial_is };
}

fn read_cause(alloc: Global, number: u8, bytes: &[u8]) -> Result<(Cause, &[u8]), CodeFault>
    ensures value { Gives (λ x. (x.0, x.1.now)) result (cause_cases number bytes.now) }
    ensures fits { IfOk result (λ x. FitsCause x.0) }
{
    match number {
        0 => Ok((Cause::NoSlot, bytes)),
        1 => Ok((Cause::NoTool, bytes)),
        2 => match <(Text, Denial)>::read(alloc, bytes) {
            Ok(((host, answer), rest)) => Ok((Cause::Denied(host, answer), rest)),
            Err(fault) => Err(fault),
        },
        3 => Ok((Cause::Silent, bytes)),
        4 => Ok((Cause::HoldEnded, bytes)),
        _ => Err(CodeFault::NoValue),
    }
}

impl Coded for Cause {
    ghost use Rattle.value_bytes.specs.Reasons.{cause, cause_is};

    ghost codec = { cause };

    fn write(&self, alloc: Global, out: &mut Vec<u8>) -> Result<(), Memory> {
        match self {
            Cause::NoSlot => 0u8.write(alloc, out),
            Cause::NoTool => 1u8.write(alloc, out),
            Cause::Denied(host, answer) => write_variant_2(alloc, 2, host, answer, out),
            Cause::Silent => 3u8.write(alloc, out),
            Cause::HoldEnded => 4u8.write(alloc, out),
        }
    }

    fn read(alloc: Global, bytes: &[u8]) -> Result<(Cause, &[u8]), CodeFault> {
        let (number, rest) = u8::read(alloc, bytes)?;
        read_cause(alloc, number, rest)
    }

    ghost laws = { cause_is };
}

fn read_why(alloc: Global, number: u8, bytes: &[u8]) -> Result<(Why, &[u8]), CodeFault>
    ensures value { Gives (λ x. (x.0, x.1.now)) result (why_cases number bytes.now) }
    ensures fits { IfOk result (λ x. FitsWhy x.0) }
{
    match number {
        0 => Ok((Why::Missed, bytes)),
        1 => match RunKey::read(alloc, bytes) {
            Ok((run, rest)) => Ok((Why::Preempted(run), rest)),
            Err(fault) => Err(fault),
        },
        2 => match Cause::read(alloc, bytes) {
            Ok((because, rest)) => Ok((Why::Nonstart(because), rest)),
            Err(fault) => Err(fault),
        },
        3 => Ok((Why::Canceled, bytes)),
        _ => Err(CodeFault::NoValue),
    }
}

impl Coded for Why {
    ghost use Rattle.value_bytes.specs.Reasons.{why, why_is};

    ghost codec = { why };

    fn write(&self, alloc: Global, out: &mut Vec<u8>) -> Result<(), Memory> {
        match self {
            Why::Missed => 0u8.write(alloc, out),
            Why::Preempted(run) => write_variant(alloc, 1, run, out),
            Why::Nonstart(because) => write_variant(alloc, 2, because, out),
            Why::Canceled => 3u8.write(alloc, out),
        }
    }

    fn read(alloc: Global, bytes: &[u8]) -> Result<(Why, &[u8]), CodeFault> {
        let (number, rest) = u8::read(alloc, bytes)?;
        read_why(alloc, number, rest)
    }

    ghost laws = { why_is };
}

impl Coded for Closing {
    ghost use Rattle.value_bytes.specs.Reasons.{closing, closing_is};

    ghost codec = { closing };

    fn write(&self, alloc: Global, out: &mut Vec<u8>) -> Result<(), Memory> {
        write_two(alloc, &self.moment, &self.why, out)
    }

    fn read(alloc: Global, bytes: &[u8]) -> Result<(Closing, &[u8]), CodeFault> {
        let ((moment, why), rest) = <(u64, Why)>::read(alloc, bytes)?;
        let value = Closing { moment, why };
        Ok((value, rest))
    }

    ghost laws = { closing_is };
}
