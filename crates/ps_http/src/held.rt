//! Bytes that were read from a source and belong to no message yet.
ghost use Rattle.std.specs.Prelude.{◌≡◌, ◌≤◌, ◌<◌, [], length, take, drop, IfOk, OnOk, OnErr, IfErr, IsErrOf, ◌+◌, ◌-◌, min};
ghost use Rattle.std.specs.Io.KnownBytes.{Keeps};
ghost use Rattle.ps_ports.specs.Causes.{HasCause, Rose};
ghost use Rattle.ps_http.specs.Body.{HasBody, BodyFault, Filled, FillFault};
ghost use Rattle.ps_http.specs.Collected.{Collected, Interrupted};
ghost use Rattle.ps_http.specs.Held.{Came, CameAt};

use crate::fault::HttpFault;
use crate::lines::LinePosition;
use ps_ports::fault::Failed;
use ps_ports::source::Source;
use ps_time::memory::Memory;
use std::alloc::Global;
use std::marker::Model;

/// How many bytes are held at most: the longest head.
pub const ROOM: usize = 16_384;

/// Reads once from the source, to a place in `bytes` that ends before `to`.
pub fn read_between<S: Source>(
    source: &mut S,
    bytes: &mut [u8],
    from: usize,
    to: usize,
) -> Result<usize, Failed>
    requires some { from < to }
    requires fits { to ≤ length bytes.old }
    ensures ok { IfOk result (λ n. CameAt from to n bytes.new (S.left source.old) (S.left source.new)) }
    ensures err { OnErr result (Keeps (S.left source.old) (S.left source.new)) }
    ensures front { take from bytes.new ≡ take from bytes.old }
    ensures len { length bytes.new ≡ length bytes.old }
    ensures cause { HasCause (S.read_faults source.old) (S.read_faults source.new) result }
    ensures kept { S.kept source.old source.new }
{
    source.read(&mut bytes[from..to])
}

/// What was read of a source and not used yet, of at most 16,384 bytes.
#[derive(Drop)]
pub struct Held {
    bytes: Vec<u8>,
    count: usize,
}

impl Model for Held {
    ghost use Rattle.std.specs.Prelude.{◌≡◌, ◌≤◌, ℕ, List, take, vec_len};

    ghost Value = { List ℕ };

    ghost view = { λ h. take h.count h.bytes.items };

    ghost invariant = { λ h. (h.count ≤ 16384) × (vec_len h.bytes ≡ 16384) };
}

impl Held {
    /// Nothing held yet. All memory is taken here.
    pub fn new(alloc: Global) -> Result<Held, Memory>
        ensures { IfOk result (λ held. held ≡ []) }
    {
        let bytes = vec![in alloc; 0; ROOM]?;
        Ok(Held { bytes, count: 0 })
    }

    /// How many bytes are held.
    pub fn len(&self) -> usize
        ensures value { result ≡ length self.now }
        ensures bound { result ≤ 16384 }
    {
        self.count
    }

    /// The bytes that are held, in the order in which they were read.
    pub fn as_slice(&self) -> &[u8]
        ensures { result.now ≡ self.now }
    {
        &self.bytes[..self.count]
    }

    /// Reads once from the source, up to `most` bytes in all.
    pub fn read<S: Source>(&mut self, source: &mut S, most: usize) -> Result<usize, Failed>
        requires room { length self.old < most }
        requires fits { most ≤ 16384 }
        ensures ok { IfOk result (λ n. Came n self.old self.new (S.left source.old) (S.left source.new)) }
        ensures within { IfOk result (λ n. length self.new ≤ most) }
        ensures err { OnErr result ((self.new ≡ self.old) × Keeps (S.left source.old) (S.left source.new)) }
        ensures cause { HasCause (S.read_faults source.old) (S.read_faults source.new) result }
        ensures kept { S.kept source.old source.new }
    {
        let count = read_between(source, self.bytes.as_mut_slice(), self.count, most)?;
        self.count += count;
        Ok(count)
    }

    /// Lets the first bytes go.
    pub fn consume(&mut self, count: usize)
        requires { count ≤ length self.old }
        ensures { self.new ≡ drop count self.old }
    {
        self.bytes.copy_within(count..self.count, 0);
        self.count -= count;
    }
}

/// Reads until a head has its end, has all the bytes that it may have, or the input ends.
pub fn collect<S: Source>(source: &mut S, held: &mut Held, most: usize) -> Result<(), Failed>
    requires fits { most ≤ 16384 }
    ensures ok { OnOk result (Collected most held.old held.new (S.left source.old) (S.left source.new)) }
    ensures err { OnErr result (Interrupted most held.old held.new (S.left source.old) (S.left source.new)) }
    ensures cause { HasCause (S.read_faults source.old) (S.read_faults source.new) result }
    ensures kept { S.kept source.old source.new }
{
    let mut place = LinePosition::Before;
    let mut seen = 0;
    loop {
        let upto = held.len().min(most);
        place = place.after_all(&held.as_slice()[seen..upto]);
        seen = upto;
        if place.is_ended() {
            return Ok(());
        }
        if most <= upto {
            return Ok(());
        }
        let Ok(count) = held.read(source, most) else {
            return Err(Failed);
        };
        if count == 0 {
            return Ok(());
        }
    }
}

/// Reads the body of a message, whose head is at the front of the bytes that are held, straight
/// into its vector, and lets head and body go.
pub fn read_body<S: Source>(
    alloc: Global,
    source: &mut S,
    held: &mut Held,
    size: usize,
    whole: usize,
) -> Result<Vec<u8>, HttpFault>
    requires within { size ≤ length held.old }
    ensures ok { IfOk result (λ body. HasBody size whole body.items held.old held.new (S.left source.old) (S.left source.new)) }
    ensures err { IfErr result (λ fault. BodyFault size whole fault held.old (S.left source.old) (S.left source.new)) }
    ensures fault { IsErrOf result HttpFault.ReadFault → Rose (S.read_faults source.old) (S.read_faults source.new) }
    ensures later { S.read_faults source.old ≤ S.read_faults source.new }
    ensures kept { S.kept source.old source.new }
{
    let Ok(mut body) = vec![in alloc; 0; whole] else {
        return Err(HttpFault::Memory);
    };
    match read_whole(source, held, body.as_mut_slice(), size) {
        Ok(()) => Ok(body),
        Err(fault) => Err(fault),
    }
}

fn read_whole<S: Source>(
    source: &mut S,
    held: &mut Held,
    body: &mut [u8],
    size: usize,
) -> Result<(), HttpFault>
    requires within { size ≤ length held.old }
    ensures ok { OnOk result (HasBody size (length body.old) body.new held.old held.new (S.left source.old) (S.left source.new)) }
    ensures err { IfErr result (λ fault. BodyFault size (length body.old) fault held.old (S.left source.old) (S.left source.new)) }
    ensures len { length body.new ≡ length body.old }
    ensures fault { IsErrOf result HttpFault.ReadFault → Rose (S.read_faults source.old) (S.read_faults source.new) }
    ensures later { S.read_faults source.old ≤ S.read_faults source.new }
    ensures kept { S.kept source.old source.new }
{
    let ready = take_ready(held, body, size);
    fill(source, body, ready, size)
}

// Takes what is held of the body, and lets the head and that go.
fn take_ready(held: &mut Held, body: &mut [u8], size: usize) -> usize
    requires { size ≤ length held.old }
    ensures count { result ≡ min (length body.old) (length held.old - size) }
    ensures front { take result body.new ≡ take result (drop size held.old) }
    ensures len { length body.new ≡ length body.old }
    ensures rest { held.new ≡ drop (size + result) held.old }
    ensures bound { size ≤ 16384 }
{
    let ready = body.len().min(held.len() - size);
    body[..ready].copy_from_slice(&held.as_slice()[size..size + ready]);
    held.consume(size + ready);
    ready
}

// Fills the body, of which so many bytes are there already, behind a head of this size.
fn fill<S: Source>(
    source: &mut S,
    body: &mut [u8],
    ready: usize,
    size: usize,
) -> Result<(), HttpFault>
    requires within { ready ≤ length body.old }
    requires fits { size ≤ 16384 }
    ensures ok { OnOk result (Filled ready (length body.old) (take ready body.old) body.new (S.left source.old) (S.left source.new)) }
    ensures err { IfErr result (λ fault. FillFault ready size (length body.old) fault (S.left source.old) (S.left source.new)) }
    ensures len { length body.new ≡ length body.old }
    ensures fault { IsErrOf result HttpFault.ReadFault → Rose (S.read_faults source.old) (S.read_faults source.new) }
    ensures later { S.read_faults source.old ≤ S.read_faults source.new }
    ensures kept { S.kept source.old source.new }
{
    let length = body.len();
    let mut count = ready;
    while count < length {
        match read_between(source, body, count, length) {
            Ok(0) => return Err(HttpFault::EndInside((size + count) as u64)),
            Ok(more) => count += more,
            Err(_) => return Err(HttpFault::ReadFault),
        }
    }
    Ok(())
}
