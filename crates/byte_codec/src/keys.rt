//! Keys of runs, askers, intervals and windows as bytes.

use crate::coded::{Coded, write_four, write_two};
use ps_time::asker::Asker;
use ps_time::interval::{Interval, Window};
use ps_time::items::Items;
use ps_time::key::RunKey;
use ps_time::memory::Memory;
use ps_time::text::Text;
use ps_time::tiers::Tiers;
use std::alloc::Global;
use value_bytes::fault::CodeFault;

impl Coded for RunKey {
    ghost use Rattle.value_bytes.specs.Keys.{key, key_is};

    ghost codec = { key };

    fn write(&self, alloc: Global, out: &mut Vec<u8>) -> Result<(), Memory> {
        write_four(
            alloc,
            &self.lead,
            &self.task,
            &self.number,
            &self.attempt,
            out,
        )
    }

    fn read(alloc: Global, bytes: &[u8]) -> Result<(RunKey, &[u8]), CodeFault> {
        let ((lead, (task, (number, attempt))), rest) = <(u16, (u32, (u32, u16)))>::read(
            alloc, bytes,
        )?;
        let key = RunKey {
            lead,
            task,
            number,
            attempt,
        };
        Ok((key, rest))
    }

    ghost laws = { key_is };
}

impl Coded for Asker {
    ghost use Rattle.value_bytes.specs.Keys.{asker, asker_is};

    ghost codec = { asker };

    fn write(&self, alloc: Global, out: &mut Vec<u8>) -> Result<(), Memory> {
        write_two(alloc, &self.requester, &self.server, out)
    }

    fn read(alloc: Global, bytes: &[u8]) -> Result<(Asker, &[u8]), CodeFault> {
        let ((requester, server), rest) = <(Text, Text)>::read(alloc, bytes)?;
        Ok((Asker { requester, server }, rest))
    }

    ghost laws = { asker_is };
}

impl Coded for Interval {
    ghost use Rattle.value_bytes.specs.Keys.{interval, interval_is};

    ghost codec = { interval };

    fn write(&self, alloc: Global, out: &mut Vec<u8>) -> Result<(), Memory> {
        write_two(alloc, &self.start, &self.end, out)
    }

    fn read(alloc: Global, bytes: &[u8]) -> Result<(Interval, &[u8]), CodeFault> {
        let ((start, end), rest) = <(u64, u64)>::read(alloc, bytes)?;
        if start < end {
            Ok((Interval { start, end }, rest))
        } else {
            Err(CodeFault::NoValue)
        }
    }

    ghost laws = { interval_is };
}

impl Coded for Window {
    ghost use Rattle.value_bytes.specs.Keys.{window, window_is};

    ghost codec = { window };

    fn write(&self, alloc: Global, out: &mut Vec<u8>) -> Result<(), Memory> {
        write_two(alloc, &self.first, &self.last, out)
    }

    fn read(alloc: Global, bytes: &[u8]) -> Result<(Window, &[u8]), CodeFault> {
        let ((first, last), rest) = <(u64, u64)>::read(alloc, bytes)?;
        if first <= last {
            Ok((Window { first, last }, rest))
        } else {
            Err(CodeFault::NoValue)
        }
    }

    ghost laws = { window_is };
}

impl Coded for Tiers {
    ghost use Rattle.value_bytes.specs.Keys.{tiers, tiers_is};

    ghost codec = { tiers };

    fn write(&self, alloc: Global, out: &mut Vec<u8>) -> Result<(), Memory> {
        write_two(alloc, &self.first, &self.second, out)
    }

    fn read(alloc: Global, bytes: &[u8]) -> Result<(Tiers, &[u8]), CodeFault> {
        let ((first, second), rest) = <(Items<Window>, Items<Window>)>::read(alloc, bytes)?;
        Ok((Tiers { first, second }, rest))
    }

    ghost laws = { tiers_is };
}
