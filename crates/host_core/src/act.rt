//! A step that a host makes in memory.
ghost use Rattle.std.specs.Prelude.{◌≡◌, ◌≤◌, IfOk, OnErr, OnOk};
ghost use Rattle.ps_time.specs.declared.moment.TheConstants.{MAX_MOMENT};
ghost use Rattle.host_model.specs.Conditions.{IsConfig, IsInput};
ghost use Rattle.host_model.specs.Step.{step_book, step_reply};

use crate::decide::decide;
use host_model::config::Config;
use host_model::input::Input;
use host_model::law::law_step;
use host_model::reply::{Outcome, Reply};
use host_turns::book::HostBook;
use ps_time::memory::Memory;
use ps_time::moment::Moment;
use std::alloc::Global;

/// Makes a step at a clock, in seconds since 1970 UTC, and answers it. After `Memory` the book is as it was.
pub fn act(
    alloc: Global,
    config: &Config,
    book: &mut HostBook,
    clock: Moment,
    input: Input,
) -> Result<Reply, Memory>
    requires number { book.old.number ≡ config.now.number }
    requires config { IsConfig config.now }
    requires clock { clock ≤ MAX_MOMENT }
    requires bounds { IsInput config.now input }
    ensures number { book.new.number ≡ book.old.number }
    ensures reply { IfOk result (λ reply. reply ≡ step_reply config.now book.old.book clock input) }
    ensures book { OnOk result (book.new.book ≡ step_book config.now book.old.book clock input) }
    ensures unchanged { OnErr result (book.new.book ≡ book.old.book) }
{
    law_step();
    let _known = book.rows();
    let moment = book.moment().max(clock);
    let Outcome { reply, list } = decide(alloc, config, book, clock, input)?;
    match book.prepare(alloc, list) {
        Ok(ready) => {
            book.absorb_all(moment, ready);
            Ok(reply)
        }
        Err(fault) => {
            drop(reply);
            Err(fault)
        }
    }
}
