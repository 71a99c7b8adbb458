//! Rows of runs as bytes.
ghost use Rattle.std.specs.Prelude.{◌++◌, ◌≡◌, OnOk};
ghost use Rattle.value_bytes.specs.Rows.{ends, ends_of_row, lead, lead_of_row, steps, steps_of_row, work, work_of_row};

use crate::coded::{Coded, write_four, write_three, write_two};
use archive_retry::state::ArchiveState;
use plugin_core::test_spec::TestSpec;
use ps_time::asker::Asker;
use ps_time::interval::{Interval, Window};
use ps_time::items::Items;
use ps_time::key::RunKey;
use ps_time::memory::Memory;
use ps_time::text::Text;
use ps_time::tiers::Tiers;
use run_states::answer::{FreeAnswer, Other};
use run_states::row::{Ending, RunRow};
use run_states::why::Closing;
use std::alloc::Global;
use value_bytes::fault::CodeFault;
use value_bytes::parts::{RowParts, row_of};

impl Coded for FreeAnswer {
    ghost use Rattle.value_bytes.specs.Rows.{answer, answer_is};

    ghost codec = { answer };

    fn write(&self, alloc: Global, out: &mut Vec<u8>) -> Result<(), Memory> {
        write_two(alloc, &self.tools, &self.tiers, out)
    }

    fn read(alloc: Global, bytes: &[u8]) -> Result<(FreeAnswer, &[u8]), CodeFault> {
        let ((tools, tiers), rest) = <(Items<Text>, Tiers)>::read(alloc, bytes)?;
        let value = FreeAnswer { tools, tiers };
        Ok((value, rest))
    }

    ghost laws = { answer_is };
}

impl Coded for Other {
    ghost use Rattle.value_bytes.specs.Rows.{other, other_is};

    ghost codec = { other };

    fn write(&self, alloc: Global, out: &mut Vec<u8>) -> Result<(), Memory> {
        self.free.write(alloc, out)?;
        self.accepted.write(alloc, out)?;
        write_four(
            alloc,
            &self.confirm_told,
            &self.cancel_told,
            &self.material_told,
            &self.heard,
            out,
        )
    }

    fn read(alloc: Global, bytes: &[u8]) -> Result<(Other, &[u8]), CodeFault> {
        let ((free, (accepted, (confirm_told, (cancel_told, (material_told, heard))))), rest) = <(
            Option<FreeAnswer>,
            (bool, (bool, (bool, (bool, Option<Option<Text>>)))),
        )>::read(alloc, bytes)?;
        let value = Other {
            free,
            accepted,
            confirm_told,
            cancel_told,
            material_told,
            heard,
        };
        Ok((value, rest))
    }

    ghost laws = { other_is };
}

impl Coded for Ending {
    ghost use Rattle.value_bytes.specs.Rows.{ending, ending_is};

    ghost codec = { ending };

    fn write(&self, alloc: Global, out: &mut Vec<u8>) -> Result<(), Memory> {
        write_three(alloc, &self.moment, &self.good, &self.body, out)
    }

    fn read(alloc: Global, bytes: &[u8]) -> Result<(Ending, &[u8]), CodeFault> {
        let ((moment, (good, body)), rest) = <(u64, (bool, Text))>::read(alloc, bytes)?;
        let value = Ending { moment, good, body };
        Ok((value, rest))
    }

    ghost laws = { ending_is };
}

fn write_work(alloc: Global, row: &RunRow, out: &mut Vec<u8>) -> Result<(), Memory>
    requires { work.Writable (work_of_row row.now) }
    ensures code { OnOk result (out.new.items ≡ out.old.items ++ work.code (work_of_row row.now)) }
    ensures fits { OnOk result (work.Fits (work_of_row row.now)) }
{
    row.key.write(alloc, out)?;
    write_four(
        alloc,
        &row.test,
        &row.tool,
        &row.interval,
        &row.priority,
        out,
    )
}

fn write_steps(alloc: Global, row: &RunRow, out: &mut Vec<u8>) -> Result<(), Memory>
    requires { steps.Writable (steps_of_row row.now) }
    ensures code { OnOk result (out.new.items ≡ out.old.items ++ steps.code (steps_of_row row.now)) }
    ensures fits { OnOk result (steps.Fits (steps_of_row row.now)) }
{
    row.participants.write(alloc, out)?;
    write_four(
        alloc,
        &row.asker,
        &row.accepted,
        &row.confirmed,
        &row.started,
        out,
    )
}

fn write_ends(alloc: Global, row: &RunRow, out: &mut Vec<u8>) -> Result<(), Memory>
    requires { ends.Writable (ends_of_row row.now) }
    ensures code { OnOk result (out.new.items ≡ out.old.items ++ ends.code (ends_of_row row.now)) }
    ensures fits { OnOk result (ends.Fits (ends_of_row row.now)) }
{
    row.ended.write(alloc, out)?;
    write_four(
        alloc,
        &row.material,
        &row.closed,
        &row.question,
        &row.asked,
        out,
    )
}

fn write_lead(alloc: Global, row: &RunRow, out: &mut Vec<u8>) -> Result<(), Memory>
    requires { lead.Writable (lead_of_row row.now) }
    ensures code { OnOk result (out.new.items ≡ out.old.items ++ lead.code (lead_of_row row.now)) }
    ensures fits { OnOk result (lead.Fits (lead_of_row row.now)) }
{
    write_three(alloc, &row.others, &row.merged, &row.archives, out)
}

impl Coded for RunRow {
    ghost use Rattle.value_bytes.specs.Rows.{row, row_is};

    ghost codec = { row };

    fn write(&self, alloc: Global, out: &mut Vec<u8>) -> Result<(), Memory> {
        write_work(alloc, self, out)?;
        write_steps(alloc, self, out)?;
        write_ends(alloc, self, out)?;
        write_lead(alloc, self, out)
    }

    fn read(alloc: Global, bytes: &[u8]) -> Result<(RunRow, &[u8]), CodeFault> {
        let (parts, rest) = RowParts::read(alloc, bytes)?;
        Ok((row_of(parts), rest))
    }

    ghost laws = { row_is };
}
