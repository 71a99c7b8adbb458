//! A machine that gathers bytes.
ghost use Rattle.std.specs.Prelude.{◌≡◌, ◌≤◌, ◌++◌, IfOk, IfSome, OnOk, length};
ghost use Rattle.machine_keep_tests.specs.Gathered.{front_of, joined, mark_of, room_in, unless_full};

use host_journal::image::SnapshotImage;
use machine_keep::machine::{Decided, Machine, RestoreFault, Restored};
use ps_time::items::Items;
use ps_time::memory::Memory;
use std::alloc::Global;

/// How many bytes are gathered at once, at most.
pub const MOST_AT_ONCE: usize = 65_536;

/// The first byte of a snapshot that is written, and that of an earlier one.
const WRITTEN: u8 = 2;

const EARLIER: u8 = 1;

/// The bytes that were gathered, and how many there may be, which is what it is made with. Bytes are asked to be gathered, or
/// none; the answer is how many there were. What has no place isn't gathered.
#[derive(Drop)]
pub struct Gatherer {
    pub bytes: Vec<u8>,
    pub most: usize,
}

impl Gatherer {
    // With the bytes of a snapshot behind its mark, and of records.
    fn of_list(
        alloc: Global,
        most: usize,
        front: &[u8],
        records: &[Items<u8>],
    ) -> Result<Gatherer, Memory>
        ensures bytes { IfOk result (λ gatherer. gatherer.bytes.items ≡ front.now ++ joined records.now) }
        ensures most { IfOk result (λ gatherer. gatherer.most ≡ most) }
    {
        let mut bytes = Vec::new(alloc);
        bytes.extend_from_slice(front)?;
        put_all(&mut bytes, records)?;
        Ok(Gatherer { bytes, most })
    }

    // The bytes that are asked for, where there is a place for them.
    fn wanted(&self, call: Option<Items<u8>>) -> Option<Items<u8>>
        ensures step { result ≡ unless_full (record { bytes = self.now.bytes.items; most = self.now.most }) call }
        ensures place { IfSome result (λ chunk. length chunk ≤ room_in (record { bytes = self.now.bytes.items; most = self.now.most })) }
    {
        let chunk = call?;
        if chunk.len() > self.most.saturating_sub(self.bytes.len()).min(MOST_AT_ONCE) {
            drop(chunk);
            return None;
        }
        Some(chunk)
    }
}

#[tactic(auto, using(crate::specs::JoinLemmas::apart))]
fn put_all(bytes: &mut Vec<u8>, list: &[Items<u8>]) -> Result<(), Memory>
    ensures { OnOk result (bytes.new.items ≡ bytes.old.items ++ joined list.now) }
{
    for item in list {
        bytes.extend_from_slice(item.as_slice())?;
    }
    Ok(())
}

// Its mark, and what lies behind it.
fn parts_of(snapshot: &[u8]) -> (u8, &[u8])
    ensures mark { result.0 ≡ mark_of snapshot.now }
    ensures front { result.1.now ≡ front_of snapshot.now }
{
    match snapshot {
        [] => (WRITTEN, snapshot),
        [mark, front @ ..] => (*mark, front),
    }
}

impl Machine for Gatherer {
    ghost use Rattle.std.specs.Prelude.{◌≡◌, ◌≤◌, ◌+◌, ℕ, length, refl, vec_len, vec_capacity};
    ghost use Rattle.machine_keep_tests.specs.Gathered.{Gathered, Holds, room_in, unless_full, with_chunk};
    ghost use Rattle.machine_keep_tests.specs.JoinLemmas.{with_most, with_record};

    type Origin = usize;

    type Call = Option<Items<u8>>;

    type Reply = usize;

    type Step = Items<u8>;

    ghost State = { Gathered };

    ghost state = { λ g. record { bytes = g.bytes.items; most = g.most } };

    ghost Fixed = { ℕ };

    ghost fixed = { λ s. s.most };

    ghost fixed_of = { λ origin. origin };

    ghost stands_for = { λ list s. Holds 2 list s.bytes };

    ghost stood_for = { λ list s. Holds 1 list s.bytes };

    ghost record_of = { λ chunk. chunk };

    ghost may_ask = { λ most call. Unit {0} };

    // There may be more from then on.
    ghost may_set = { λ from to. from ≤ to };

    ghost with_fixed = { λ most s. record { bytes = s.bytes; most = most } };

    ghost answers = { λ s call reply step. (reply ≡ length s.bytes) × (step ≡ unless_full s call) };

    ghost follows = { λ s chunk. length chunk ≤ room_in s };

    ghost after = { with_chunk };

    ghost has_room = { λ g chunk. vec_len g.bytes + length chunk ≤ vec_capacity g.bytes };

    fn restore(
        alloc: Global,
        origin: usize,
        list: &[Items<u8>],
    ) -> Result<Restored<Gatherer>, RestoreFault> {
        let Some((snapshot, records)) = list.split_first() else {
            return Err(RestoreFault::Memory);
        };
        let (mark, front) = parts_of(snapshot.as_slice());
        if mark != WRITTEN && mark != EARLIER {
            return Err(RestoreFault::NotARecord(0));
        }
        let machine = Gatherer::of_list(alloc, origin, front, records)?;
        Ok(Restored {
            machine,
            is_earlier: mark == EARLIER,
        })
    }

    fn set_config(&mut self, origin: usize) {
        self.most = origin;
    }

    fn decide(
        &mut self,
        alloc: Global,
        call: Option<Items<u8>>,
    ) -> Result<Decided<usize, Items<u8>>, Memory> {
        self.bytes.reserve(MOST_AT_ONCE)?;
        Ok(Decided {
            reply: self.bytes.len(),
            step: self.wanted(call),
        })
    }

    fn take(&mut self, step: Items<u8>) {
        let _put = self.bytes.extend_from_slice(step.as_slice());
    }

    fn write_record(&self, alloc: Global, step: &Items<u8>) -> Result<Vec<u8>, Memory> {
        let mut bytes = Vec::new(alloc);
        bytes.extend_from_slice(step.as_slice())?;
        Ok(bytes)
    }

    fn image_guess(&self) -> usize {
        self.bytes.len().saturating_add(1)
    }

    fn write_image(&self, _alloc: Global, image: SnapshotImage) -> Result<SnapshotImage, Memory> {
        let mut buffer = image.into_buffer();
        buffer.push(WRITTEN)?;
        buffer.extend_from_slice(self.bytes.as_slice())?;
        Ok(SnapshotImage::of_buffer(buffer))
    }

    ghost stands_more = { λ list s chunk is can. with_record list s.bytes chunk is };

    ghost fixed_after = { λ s chunk can. refl };

    ghost stands_set = { λ list most s can is. is };

    ghost follows_set = { with_most };

    ghost fixed_set = { λ most s. refl };

    ghost after_set = { λ most s step. refl };
}
