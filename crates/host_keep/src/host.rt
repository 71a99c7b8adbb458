//! A host with its configuration and its book.
ghost use Rattle.std.specs.Prelude.{◌-◌, ◌<◌, ◌≡◌, ◌≤◌, All, IfOk, IfSome, length};
ghost use Rattle.value_bytes.specs.Changes.{changes};
ghost use Rattle.host_book.specs.Ready.{IsReady, all_brought};
ghost use Rattle.host_keep.specs.Standing.{Makes};
ghost use Rattle.host_rows.specs.Ledger.{most_counted};
ghost use Rattle.run_states.specs.ResultBytes.{result_bytes};

use crate::call::{HostCall, HostStep};
use crate::parts::write_snapshot;
use host_book::book::HostBook;
use host_codec::record::{law_writable_record, write_record};
use host_core::decide::decide;
use host_journal::image::SnapshotImage;
use host_model::change::Changes;
use host_model::config::Config;
use host_model::law::law_step;
use host_model::reply::{Outcome, Reply};
use host_replay::restore::{Restored as RestoredBook, restore};
use machine_keep::machine::{Decided, Machine, RestoreFault, Restored};
use ps_time::items::Items;
use ps_time::memory::Memory;
use std::alloc::Global;
use std::marker::Model;

/// A host: its configuration, and its book in memory.
pub struct Host {
    config: Config,
    book: HostBook,
}

impl Model for Host {
    ghost use Rattle.std.specs.Prelude.{◌≡◌};
    ghost use Rattle.host_keep.specs.Standing.{Seen};

    ghost Value = { Seen };

    ghost view = { λ h. record { standing = record { config = h.config; book = h.book.book }; room = h.book.room } };

    ghost invariant = { λ h. h.book.number ≡ h.config.number };
}

// Written out, so that a drop elsewhere is one call.
impl Drop for Host {
    fn drop(self) {
        let Host { config: _, book: _ } = self;
    }
}

impl Host {
    /// The configuration.
    pub fn config(&self) -> &Config
        ensures { result.now ≡ self.now.standing.config }
    {
        &self.config
    }

    /// The book.
    pub fn book(&self) -> &HostBook
        ensures number { result.now.number ≡ self.now.standing.config.number }
        ensures book { result.now.book ≡ self.now.standing.book }
    {
        &self.book
    }
}

/// No record has more bytes. An input of at most 2,097,152 bytes of texts, as all are that come by HTTP, makes none that is longer.
const MOST_RECORD_BYTES: usize = 8_388_608;

/// Most records have fewer bytes.
const USUAL_RECORD_BYTES: usize = 512;

// The step that makes these changes; none where there are none. One whose record would be longer than a journal takes is refused
// as out of memory.
fn step_of(alloc: Global, book: &mut HostBook, kept: Changes) -> Result<Option<HostStep>, Memory>
    requires { changes.Writable kept }
    ensures number { book.new.number ≡ book.old.number }
    ensures book { book.new.book ≡ book.old.book }
    ensures makes { IfOk result (Makes kept) }
    ensures some { IfOk result (λ o. IfSome o (λ step. 0 < length step.list)) }
    ensures ready { IfOk result (λ o. IfSome o (λ step. All IsReady step.list)) }
    ensures bytes { IfOk result (λ o. IfSome o (λ step. all_brought step.list ≤ most_counted - result_bytes book.old.book.rows)) }
    ensures room { IfOk result (λ o. IfSome o (λ step. length step.list ≤ book.new.room)) }
    ensures fits { IfOk result (λ o. IfSome o (λ step. changes.Fits kept)) }
    ensures code { IfOk result (λ o. IfSome o (λ step. step.record.items ≡ changes.code kept)) }
    ensures short { IfOk result (λ o. IfSome o (λ step. length step.record.items ≤ 8388608)) }
{
    if kept.list.len() == 0 {
        drop(kept);
        return Ok(None);
    }
    let Ok(mut record) = Vec::with_capacity(alloc, USUAL_RECORD_BYTES) else {
        drop(kept);
        return Err(Memory);
    };
    if let Err(fault) = write_record(alloc, &kept, &mut record) {
        drop(kept);
        return Err(fault);
    }
    if record.len() > MOST_RECORD_BYTES {
        drop((kept, record));
        return Err(Memory);
    }
    let Changes { moment, list } = kept;
    match book.prepare(alloc, list) {
        Ok(list) => Ok(Some(HostStep {
            moment,
            list,
            record,
        })),
        Err(fault) => {
            drop(record);
            Err(fault)
        }
    }
}

impl Machine for Host {
    ghost use Rattle.std.specs.Prelude.{◌≤◌, length};
    ghost use Rattle.host_keep.specs.Standing.{Answers, Follows, IsAsked, IsNext, Standing, StandsNow, StoodOnce, after, with_config};
    ghost use Rattle.host_keep.specs.Laws.{after_fixed, after_with, fixed_with, follows_with, stands_more, stands_with};
    ghost use Rattle.host_model.specs.declared.config.Config.{Config as ConfigSeen};

    type Origin = Config;

    type Call = HostCall;

    type Reply = Reply;

    type Step = HostStep;

    ghost State = { Standing };

    ghost state = { λ h. h.standing };

    ghost Fixed = { ConfigSeen };

    ghost fixed = { λ s. s.config };

    ghost fixed_of = { λ c. c };

    ghost stands_for = { StandsNow };

    ghost stood_for = { StoodOnce };

    ghost record_of = { λ step. step.record.items };

    ghost may_ask = { IsAsked };

    ghost may_set = { IsNext };

    ghost with_fixed = { with_config };

    ghost answers = { Answers };

    ghost follows = { Follows };

    ghost after = { after };

    ghost has_room = { λ h step. length step.list ≤ h.room };

    fn restore(
        alloc: Global,
        origin: Config,
        list: &[Items<u8>],
    ) -> Result<Restored<Host>, RestoreFault> {
        match restore(alloc, origin.number, list) {
            Ok(RestoredBook { book, is_first }) => Ok(Restored {
                machine: Host {
                    config: origin,
                    book,
                },
                is_earlier: is_first,
            }),
            Err(fault) => {
                drop(origin);
                Err(fault)
            }
        }
    }

    fn set_config(&mut self, origin: Config) {
        self.config = origin;
    }

    fn decide(
        &mut self,
        alloc: Global,
        call: HostCall,
    ) -> Result<Decided<Reply, HostStep>, Memory> {
        law_step();
        law_writable_record();
        let _known = self.book.rows();
        let HostCall { clock, input } = call;
        let moment = self.book.moment().max(clock);
        let Outcome { reply, list } = decide(alloc, &self.config, &self.book, clock, input)?;
        match step_of(alloc, &mut self.book, Changes { moment, list }) {
            Ok(step) => Ok(Decided { reply, step }),
            Err(fault) => {
                drop(reply);
                Err(fault)
            }
        }
    }

    fn take(&mut self, step: HostStep) {
        let HostStep {
            moment,
            list,
            record,
        } = step;
        drop(record);
        self.book.absorb_all(moment, list);
    }

    fn write_record(&self, alloc: Global, step: &HostStep) -> Result<Vec<u8>, Memory> {
        Ok(step.record.as_slice().to_vec(alloc)?)
    }

    fn image_guess(&self) -> usize {
        self.book.rows().len().saturating_mul(GUESSED_ROW_BYTES)
    }

    fn write_image(&self, alloc: Global, image: SnapshotImage) -> Result<SnapshotImage, Memory> {
        write_snapshot(alloc, &self.book, image)
    }

    ghost stands_more = { stands_more };

    ghost fixed_after = { after_fixed };

    ghost stands_set = { stands_with };

    ghost follows_set = { follows_with };

    ghost fixed_set = { fixed_with };

    ghost after_set = { after_with };
}

/// A row of a snapshot has about so many bytes.
const GUESSED_ROW_BYTES: usize = 512;
