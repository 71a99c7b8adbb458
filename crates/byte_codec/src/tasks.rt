//! Tasks and limits as bytes.
use crate::coded::{Coded, write_four};
use crate::texts::write_str;
use host_model::task_row::TaskRow;
use limit_apply::limits::Limits;
use limit_apply::read::law_own_texts;
use ps_time::asker::Asker;
use ps_time::memory::Memory;
use ps_time::text::Text;
use std::alloc::Global;
use value_bytes::fault::CodeFault;
use value_bytes::tasks::{task_in, task_text};

type TaskParts = (u32, (Text, (Asker, (u64, Option<u64>))));

impl Coded for TaskRow {
    ghost use Rattle.value_bytes.specs.Tasks.{task_row, task_row_is};

    ghost codec = { task_row };

    fn write(&self, alloc: Global, out: &mut Vec<u8>) -> Result<(), Memory> {
        let text = task_text(alloc, self.asker.server.as_str(), &self.task)?;
        self.serial.write(alloc, out)?;
        write_four(alloc, &text, &self.asker, &self.posted, &self.closed, out)
    }

    fn read(alloc: Global, bytes: &[u8]) -> Result<(TaskRow, &[u8]), CodeFault> {
        let ((serial, (text, (asker, (posted, closed)))), rest) = TaskParts::read(alloc, bytes)?;
        let task = task_in(alloc, &text, asker.server.as_str())?;
        let row = TaskRow {
            serial,
            task,
            asker,
            posted,
            closed,
        };
        Ok((row, rest))
    }

    ghost laws = { task_row_is };
}

impl Coded for Limits {
    ghost use Rattle.value_bytes.specs.Tasks.{limits, limits_is};

    ghost codec = { limits };

    fn write(&self, alloc: Global, out: &mut Vec<u8>) -> Result<(), Memory> {
        write_str(alloc, self.text(), out)
    }

    fn read(alloc: Global, bytes: &[u8]) -> Result<(Limits, &[u8]), CodeFault> {
        law_own_texts();
        let (text, rest) = Text::read(alloc, bytes)?;
        match Limits::from_own_text(alloc, text.as_str())? {
            Some(limits) => Ok((limits, rest)),
            None => Err(CodeFault::NoValue),
        }
    }

    ghost laws = { limits_is };
}
