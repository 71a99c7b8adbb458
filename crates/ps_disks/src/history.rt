//! The bytes of a disk in memory, and the calls that made them.
ghost use Rattle.std.specs.Prelude.{◌≡◌, ◌+◌, ◌-◌, ◌≤◌, ◌++◌, [], ◌∷◌, length, map, take, drop, replicate, min, IsTrue, IfOk, OnOk, OnErr};
ghost use Rattle.ps_disks.specs.Disk.{AreBounded, written, done_by};
ghost use Rattle.ps_disks.specs.History.{EndsInReach, History as Story, IsImage, IsStanding, bytes_now, effect, fixes, half_done_by, half_replayed, image_bytes, left_by, taken_from, taken_until, undone, undone_one, with_call};
ghost use Rattle.ps_disks.specs.declared.history.RecentCall.{RecentCall as Recent};

use crate::disk::DiskCall;
use crate::image::Image;
use ps_time::memory::Memory;
use std::alloc::Global;
use std::marker::Model;
use std::snapshot::Snapshot;

/// A call, and whether it was done. One that failed did nothing.
#[derive(Drop)]
pub struct LoggedCall {
    pub call: DiskCall,
    pub done: bool,
}

/// A call that no sync has made sure of, and what undoes it: this piece is written at this place, and so many bytes are left.
#[derive(Drop)]
pub struct RecentCall {
    pub logged: LoggedCall,
    pub at: usize,
    pub piece: Vec<u8>,
    pub len: usize,
}

/// Of the calls those since the last sync alone take memory.
#[derive(Drop)]
pub struct History {
    alloc: Global,
    bytes: Vec<u8>,
    recent: Vec<RecentCall>,
    // For proofs alone: the bytes before the first call, and all calls.
    start: Snapshot<Vec<u8>>,
    log: Vec<Snapshot<LoggedCall>>,
}

impl Model for History {
    ghost use Rattle.std.specs.Prelude.{map};
    ghost use Rattle.ps_disks.specs.History.{AllEndInReach, History as Story, IsStanding, bytes_now};
    ghost use Rattle.std.specs.Prelude.{◌≡◌};

    ghost Value = { Story };

    ghost view = { λ h. record { start = h.start.value.items; log = map (λ s. s.value) h.log.items } };

    ghost invariant = { λ h. (bytes_now (record { start = h.start.value.items; log = map (λ s. s.value) h.log.items }) ≡ h.bytes.items)
        × AllEndInReach (map (λ s. s.value) h.log.items)
        × IsStanding (record { start = h.start.value.items; log = map (λ s. s.value) h.log.items }) h.recent.items h.bytes.items };
}

impl History {
    /// A disk with these bytes, which a sync has made sure of.
    pub fn new(alloc: Global, bytes: Vec<u8>) -> History
        ensures { result ≡ record { start = bytes.items; log = [] } }
    {
        let start = Snapshot::of(&bytes);
        History {
            alloc,
            bytes,
            recent: Vec::new(alloc),
            start,
            log: Vec::new(alloc),
        }
    }

    /// The allocator of its buffers.
    pub fn alloc(&self) -> Global {
        self.alloc
    }

    /// The bytes as a read finds them.
    pub fn bytes(&self) -> &[u8]
        ensures bytes { result.now ≡ bytes_now self.now }
    {
        &self.bytes
    }

    /// How many calls it tells: the writes, cuts and syncs so far, with those that failed.
    pub fn calls(&self) -> u64
        ensures { result ≡ length self.now.log }
    {
        self.log.len() as u64
    }

    /// Makes a call, or notes one that failed. Where memory runs out nothing is changed.
    pub fn add(&mut self, call: DiskCall, done: bool) -> Result<(), Memory>
        requires { IsTrue done → EndsInReach call }
        ensures ok { OnOk result (self.new ≡ with_call self.old call done) }
        ensures err { OnErr result (self.new ≡ self.old) }
    {
        self.log.reserve(1)?;
        let logged = LoggedCall { call, done };
        let noted = Snapshot::of(&logged);
        make_call(self.alloc, &mut self.bytes, &mut self.recent, logged)?;
        self.log.push(noted)?;
        Ok(())
    }

    /// No image is too long. Does nothing.
    pub fn known(&self)
        ensures { AreBounded (IsImage self.now) }
    {
        let _length = self.bytes.len();
    }

    /// What a crash leaves.
    pub fn crashed(self, image: Image) -> Result<Vec<u8>, Memory>
        ensures bytes { IfOk result (λ bytes. bytes.items ≡ image_bytes image self) }
        ensures image { IfOk result (λ bytes. IsImage self bytes.items) }
    {
        let History {
            alloc: _,
            bytes,
            recent,
            start: _,
            log: _,
        } = self;
        left_by_crash(bytes, &recent, image)
    }
}

// Makes a call, and keeps what undoes it until a sync makes sure of it. Where memory runs out neither is changed.
fn make_call(
    alloc: Global,
    bytes: &mut Vec<u8>,
    recent: &mut Vec<RecentCall>,
    logged: LoggedCall,
) -> Result<(), Memory>
    ensures bytes { OnOk result (bytes.new.items ≡ effect logged bytes.old.items) }
    ensures stands { OnOk result ((h : Story) → IsStanding h recent.old.items bytes.old.items → bytes_now h ≡ bytes.old.items → IsStanding (with_call h logged.call logged.done) recent.new.items bytes.new.items) }
    ensures bytes_err { OnErr result (bytes.new.items ≡ bytes.old.items) }
    ensures recent_err { OnErr result (recent.new.items ≡ recent.old.items) }
{
    if is_fixing(&logged) {
        recent.clear();
        return Ok(());
    }
    log_call(alloc, bytes, recent, logged)?;
    Ok(())
}

// Makes a call that makes sure of nothing, and keeps what undoes it. Where memory runs out neither is changed.
fn log_call(
    alloc: Global,
    bytes: &mut Vec<u8>,
    recent: &mut Vec<RecentCall>,
    logged: LoggedCall,
) -> Result<(), Memory>
    ensures bytes { OnOk result (bytes.new.items ≡ effect logged bytes.old.items) }
    ensures since { OnOk result (map (λ (r : Recent). r.logged) recent.new.items ≡ map (λ (r : Recent). r.logged) recent.old.items ++ logged ∷ []) }
    ensures undone { OnOk result (undone recent.new.items bytes.new.items ≡ undone recent.old.items bytes.old.items) }
    ensures bytes_err { OnErr result (bytes.new.items ≡ bytes.old.items) }
    ensures since_err { OnErr result (recent.new.items ≡ recent.old.items) }
{
    recent.reserve(1)?;
    let len = bytes.len();
    let (at, until) = taken(&logged, len);
    let piece = piece_of(alloc, bytes, at, until)?;
    if logged.done {
        make(bytes, &logged.call)?;
    }
    recent.push(RecentCall {
        logged,
        at,
        piece,
        len,
    })?;
    Ok(())
}

// The bytes from one place on, before another.
fn piece_of(alloc: Global, bytes: &[u8], at: usize, until: usize) -> Result<Vec<u8>, Memory>
    requires ordered { at ≤ until }
    requires within { until ≤ length bytes.now }
    ensures { IfOk result (λ piece. piece.items ≡ take (until - at) (drop at bytes.now)) }
{
    Ok(bytes[at..until].to_vec(alloc)?)
}

// From which place on a call changes or takes so many bytes, and before which.
fn taken(logged: &LoggedCall, len: usize) -> (usize, usize)
    ensures from { result.0 ≡ taken_from logged.now len }
    ensures until { result.1 ≡ taken_until logged.now len }
{
    if !logged.done {
        return (len, len);
    }
    match &logged.call {
        DiskCall::Write(at, piece) => {
            let end = at.saturating_add(piece.len() as u64);
            (len.min(*at as usize), len.min(end as usize))
        }
        DiskCall::Cut(left) => (len.min(*left as usize), len),
        DiskCall::Sync => (len, len),
    }
}

// Where memory runs out the bytes stay.
fn make(bytes: &mut Vec<u8>, call: &DiskCall) -> Result<(), Memory>
    ensures ok { OnOk result (bytes.new.items ≡ done_by call.now bytes.old.items) }
    ensures err { OnErr result (bytes.new.items ≡ bytes.old.items) }
{
    match call {
        DiskCall::Write(at, piece) => overwrite(bytes, *at, piece.as_slice()),
        DiskCall::Cut(len) => {
            bytes.truncate(*len as usize);
            Ok(())
        }
        DiskCall::Sync => Ok(()),
    }
}

fn make_half(bytes: &mut Vec<u8>, call: &DiskCall) -> Result<(), Memory>
    ensures { OnOk result (bytes.new.items ≡ half_done_by call.now bytes.old.items) }
{
    match call {
        DiskCall::Write(at, piece) => {
            let piece = piece.as_slice();
            overwrite(bytes, *at, &piece[..piece.len() / 2])
        }
        DiskCall::Cut(len) => {
            bytes.truncate(*len as usize);
            Ok(())
        }
        DiskCall::Sync => Ok(()),
    }
}

fn overwrite(bytes: &mut Vec<u8>, at: u64, piece: &[u8]) -> Result<(), Memory>
    ensures ok { OnOk result (bytes.new.items ≡ written at piece.now bytes.old.items) }
    ensures err { OnErr result (bytes.new.items ≡ bytes.old.items) }
{
    if piece.is_empty() {
        return Ok(());
    }
    let at = at as usize;
    // The front of the piece lies over bytes that are there.
    let over = piece.len().min(bytes.len().saturating_sub(at));
    grow(bytes, at, &piece[over..])?;
    bytes[at..at + over].copy_from_slice(&piece[..over]);
    Ok(())
}

// Adds zeros up to a place, and then a tail.
fn grow(bytes: &mut Vec<u8>, at: usize, tail: &[u8]) -> Result<(), Memory>
    ensures ok { OnOk result (bytes.new.items ≡ bytes.old.items ++ replicate (at - length bytes.old.items) 0 ++ tail.now) }
    ensures err { OnErr result (bytes.new.items ≡ bytes.old.items) }
{
    let len = bytes.len();
    if at > len {
        bytes.resize(at, 0)?;
    }
    if bytes.extend_from_slice(tail).is_err() {
        bytes.truncate(len);
        return Err(Memory);
    }
    Ok(())
}

// What a crash leaves of bytes behind these calls.
fn left_by_crash(bytes: Vec<u8>, recent: &[RecentCall], image: Image) -> Result<Vec<u8>, Memory>
    ensures { IfOk result (λ left. left.items ≡ left_by image recent.now bytes.items) }
{
    let mut bytes = bytes;
    match image {
        Image::New => {}
        Image::Old => undo_all(&mut bytes, recent)?,
        Image::Torn => {
            undo_all(&mut bytes, recent)?;
            replay_half(&mut bytes, recent)?;
        }
    }
    Ok(bytes)
}

// The last call is undone first.
fn undo_all(bytes: &mut Vec<u8>, recent: &[RecentCall]) -> Result<(), Memory>
    ensures { OnOk result (bytes.new.items ≡ undone recent.now bytes.old.items) }
{
    for place in (0..recent.len()).rev() {
        undo(bytes, &recent[place])?;
    }
    Ok(())
}

fn undo(bytes: &mut Vec<u8>, recent: &RecentCall) -> Result<(), Memory>
    ensures { OnOk result (bytes.new.items ≡ undone_one recent.now bytes.old.items) }
{
    overwrite(bytes, recent.at as u64, &recent.piece)?;
    bytes.truncate(recent.len);
    Ok(())
}

fn is_fixing(logged: &LoggedCall) -> bool
    ensures { result ≡ fixes logged.now }
{
    logged.done && matches!(&logged.call, DiskCall::Sync)
}

fn replay_half(bytes: &mut Vec<u8>, recent: &[RecentCall]) -> Result<(), Memory>
    ensures { OnOk result (bytes.new.items ≡ half_replayed bytes.old.items (map (λ (r : Recent). r.logged) recent.now)) }
{
    for call in recent {
        if call.logged.done {
            make_half(bytes, &call.logged.call)?;
        }
    }
    Ok(())
}
