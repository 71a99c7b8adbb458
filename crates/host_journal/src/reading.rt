//! What the bytes of two disks stand for.
ghost use Rattle.std.specs.Prelude.{◌≡◌, ◌+◌, ◌≤◌, ◌<◌, ◌^◌, true, false, length, take, IfOk, IfSome, IfNone, Some, None, Ok, [], ◌∷◌};
ghost use Rattle.host_journal.specs.Format.{agreeing, stands, sized, body_of, record_bytes, records_of};
ghost use Rattle.host_journal.specs.Pair.{number_of, counted, headless, alone};
ghost use Rattle.host_journal.specs.Front.{is_open, generation_in, numbers_behind, numbers_in, IsFrontOf, chosen_open, chosen};
ghost use Rattle.host_journal.specs.Reading.{Walked, IsWithin};

use ps_time::items::Items;
use ps_time::memory::Memory;
use std::alloc::Global;

/// The magic with which a disk begins.
const MAGIC: [u8; 8] = *b"PSCHJRN1";

/// The magic, and an open gate byte.
const OPEN_HEAD: [u8; 9] = *b"PSCHJRN1\x01";

/// The place of the first byte of a snapshot: behind the head, the generation and a length.
pub const SNAPSHOT_AT: u64 = 21;

/// What two disks stand for.
#[derive(Drop)]
pub struct Counted {
    /// The second disk counts, not the first.
    pub second: bool,
    pub generation: u64,
    /// The place of the first gate byte behind the snapshot.
    pub start: u64,
    /// The place of the first gate byte that isn't open.
    pub end: u64,
    /// The snapshot, and then the records.
    pub list: Items<Items<u8>>,
}

/// Where two disks are no journal.
#[derive(Clone, Copy, PartialEq, Eq)]
pub struct DiskPlace {
    /// 1 or 2.
    pub disk: u8,
    pub place: u64,
}

// What lies behind a head.
#[derive(Clone, Copy)]
struct Body<'a> {
    generation: u64,
    snapshot: &'a [u8],
    gate_bytes: &'a [u8],
}

type Read<T> = Result<Result<T, DiskPlace>, Memory>;

// How many bytes at the front are as wanted.
fn agreeing_with(wanted: &[u8], bytes: &[u8]) -> usize
    ensures count { result ≡ agreeing wanted.now bytes.now }
    ensures bound { result ≤ length wanted.now }
{
    let [want, wanted @ ..] = wanted else {
        return 0;
    };
    let [byte, bytes @ ..] = bytes else {
        return 0;
    };
    if *byte == *want {
        1 + agreeing_with(wanted, bytes)
    } else {
        0
    }
}

/// The magic and an open gate byte.
pub(crate) fn is_standing(bytes: &[u8]) -> bool
    ensures { result ≡ stands bytes.now }
{
    agreeing_with(&OPEN_HEAD, bytes) == 9
}

fn read_sized(bytes: &[u8]) -> Option<(&[u8], &[u8])>
    ensures some { IfSome result (λ r. sized bytes.now ≡ Some (r.0.now, r.1.now)) }
    ensures size { IfSome result (λ r. length r.0.now + length r.1.now + 4 ≡ length bytes.now) }
    ensures gate_byte { IfSome result (λ r. 0 < length r.1.now) }
    ensures none { IfNone result (sized bytes.now ≡ None) }
{
    let [a, b, c, d, rest @ ..] = bytes else {
        return None;
    };
    let size = u32::from_be_bytes([*a, *b, *c, *d]) as usize;
    if rest.len() <= size {
        return None;
    }
    Some((&rest[..size], &rest[size..]))
}

fn read_body(bytes: &[u8]) -> Option<Body<'_>>
    ensures some { IfSome result (λ body. body_of bytes.now ≡ Some (record { generation = body.generation; snapshot = body.snapshot.now; gate_bytes = body.gate_bytes.now })) }
    ensures size { IfSome result (λ body. length body.snapshot.now + length body.gate_bytes.now + 12 ≡ length bytes.now) }
    ensures gate_byte { IfSome result (λ body. 0 < length body.gate_bytes.now) }
    ensures none { IfNone result (body_of bytes.now ≡ None) }
{
    let [a, b, c, d, e, f, g, h, rest @ ..] = bytes else {
        return None;
    };
    let generation = u64::from_be_bytes([*a, *b, *c, *d, *e, *f, *g, *h]);
    let (snapshot, gate_bytes) = read_sized(rest)?;
    Some(Body {
        generation,
        snapshot,
        gate_bytes,
    })
}

fn copy_bytes(alloc: Global, bytes: &[u8]) -> Result<Items<u8>, Memory>
    ensures { IfOk result (λ copy. copy ≡ bytes.now) }
{
    Ok(Items::from_vec(bytes.to_vec(alloc)?))
}

// What lies behind an open gate byte.
fn behind_open(gate_bytes: &[u8]) -> Option<&[u8]>
    ensures some { IfSome result (λ rest. gate_bytes.now ≡ 1 ∷ rest.now) }
    ensures none { IfNone result (records_of gate_bytes.now ≡ Ok []) }
{
    match gate_bytes {
        [1, rest @ ..] => Some(rest),
        _ => None,
    }
}

/// The place of the first byte of an item of the list that an opening gave: of the snapshot, which is
/// item 0, or of a record's payload.
pub fn item_place(list: &[Items<u8>], index: usize) -> u64
    requires index { index ≤ length list.now }
    requires bound { 21 + record_bytes (take index list.now) < 2 ^ 64 }
    ensures { result ≡ 21 + record_bytes (take index list.now) }
{
    let mut place = SNAPSHOT_AT;
    for item in &list[..index] {
        place += 5 + item.len() as u64;
    }
    place
}

// Adds the records to the list. Answers how many bytes they take, or the place of an open gate byte that
// has no whole record.
fn read_records(
    alloc: Global,
    gate_bytes: &[u8],
    list: &mut Items<Items<u8>>,
) -> Result<Result<usize, usize>, Memory>
    requires { 0 < length gate_bytes.now }
    ensures walked { IfOk result (λ r. Walked list.old list.new r (records_of gate_bytes.now)) }
    ensures bound { IfOk result (λ r. IsWithin r (length gate_bytes.now)) }
{
    let mut rest = gate_bytes;
    while let Some(behind) = behind_open(rest) {
        let Some((payload, next)) = read_sized(behind) else {
            return Ok(Err(gate_bytes.len() - rest.len()));
        };
        list.push(copy_bytes(alloc, payload)?)?;
        rest = next;
    }
    Ok(Ok(gate_bytes.len() - rest.len()))
}

pub(crate) fn disk_number(second: bool) -> u8
    ensures { result ≡ number_of second }
{
    if second { 2 } else { 1 }
}

fn read_counted(alloc: Global, second: bool, body: Body<'_>) -> Read<Counted>
    requires size { length body.snapshot.now + length body.gate_bytes.now + 21 < 2 ^ 64 }
    requires gate_byte { 0 < length body.gate_bytes.now }
    ensures counted { IfOk result (λ r. r ≡ counted second (record { generation = body.entry.generation; snapshot = body.entry.snapshot.now; gate_bytes = body.entry.gate_bytes.now })) }
    ensures bound { IfOk result (λ r. IfOk r (λ k. (k.end + 1 < 2 ^ 64) × (k.start ≤ k.end))) }
{
    let mut list = Items::new(alloc);
    list.push(copy_bytes(alloc, body.snapshot)?)?;
    let start = SNAPSHOT_AT + body.snapshot.len() as u64;
    match read_records(alloc, body.gate_bytes, &mut list)? {
        Ok(bytes) => Ok(Ok(Counted {
            second,
            generation: body.generation,
            start,
            end: start + bytes as u64,
            list,
        })),
        Err(at) => Ok(Err(DiskPlace {
            disk: disk_number(second),
            place: start + at as u64,
        })),
    }
}

// Where a disk that doesn't stand isn't the magic and a gate byte.
fn headless_at(second: bool, bytes: &[u8]) -> Option<DiskPlace>
    ensures { result ≡ headless second bytes.now }
{
    let agreeing = agreeing_with(&MAGIC, bytes);
    let disk = disk_number(second);
    if agreeing == 8 {
        if bytes.len() >= 9 {
            None
        } else {
            Some(DiskPlace { disk, place: 8 })
        }
    } else {
        Some(DiskPlace {
            disk,
            place: agreeing as u64,
        })
    }
}

/// What the disk that counts says.
pub(crate) fn read_one(alloc: Global, second: bool, bytes: &[u8]) -> Read<Counted>
    ensures counted { IfOk result (λ r. r ≡ alone second bytes.now) }
    ensures bound { IfOk result (λ r. IfOk r (λ k. (k.end + 1 < 2 ^ 64) × (k.start ≤ k.end))) }
{
    let bad = DiskPlace {
        disk: disk_number(second),
        place: 9,
    };
    if bytes.len() < 9 {
        return Ok(Err(bad));
    }
    match read_body(&bytes[9..]) {
        Some(body) => read_counted(alloc, second, body),
        None => Ok(Err(bad)),
    }
}

/// What the front of a disk says of the pair.
#[derive(Clone, Copy)]
pub(crate) enum Front {
    /// The disk stands: its generation, where it has a whole snapshot and a gate byte.
    Open(Option<u64>),
    /// It doesn't: how many bytes are those of a disk that stands, and where it isn't the magic and a
    /// gate byte.
    Closed(u64, Option<DiskPlace>),
}

impl Front {
    pub(crate) fn is_open(self) -> bool
        ensures { result ≡ is_open self }
    {
        matches!(self, Front::Open(_))
    }
}

/// The numbers in the head of a disk that stands.
#[derive(Clone, Copy)]
pub(crate) struct Numbers {
    pub(crate) generation: u64,
    /// The place of the first gate byte.
    pub(crate) start: u64,
}

/// The numbers of a disk that stands, from its head: its first 21 bytes, or all where there are fewer.
pub(crate) fn numbers_in(head: &[u8]) -> Option<Numbers>
    ensures { result ≡ numbers_in head.now }
{
    if is_standing(head) {
        numbers_behind(&head[9..])
    } else {
        None
    }
}

fn numbers_behind(bytes: &[u8]) -> Option<Numbers>
    ensures { result ≡ numbers_behind bytes.now }
{
    let [a, b, c, d, e, f, g, h, rest @ ..] = bytes else {
        return None;
    };
    let generation = u64::from_be_bytes([*a, *b, *c, *d, *e, *f, *g, *h]);
    let [a, b, c, d, ..] = rest else {
        return None;
    };
    let size = u32::from_be_bytes([*a, *b, *c, *d]);
    Some(Numbers {
        generation,
        start: SNAPSHOT_AT + u64::from(size),
    })
}

/// The front of a disk with these bytes.
pub(crate) fn front_of(second: bool, bytes: &[u8]) -> Front
    ensures { IsFrontOf second bytes.now result }
{
    if is_standing(bytes) {
        return Front::Open(generation_of(&bytes[9..]));
    }
    Front::Closed(
        agreeing_with(&OPEN_HEAD, bytes) as u64,
        headless_at(second, bytes),
    )
}

fn generation_of(bytes: &[u8]) -> Option<u64>
    ensures { result ≡ generation_in (body_of bytes.now) }
{
    match read_body(bytes) {
        Some(body) => Some(body.generation),
        None => None,
    }
}

/// Whether the second disk counts, or where the two are no journal.
pub(crate) fn choose(first: Front, second: Front) -> Result<bool, DiskPlace>
    ensures { result ≡ chosen first second }
{
    match first {
        Front::Open(one) => match second {
            Front::Open(two) => choose_open(one, two),
            Front::Closed(_, Some(place)) => Err(place),
            Front::Closed(_, None) => Ok(false),
        },
        Front::Closed(place, headless) => match second {
            Front::Closed(_, _) => Err(DiskPlace { disk: 1, place }),
            Front::Open(_) => match headless {
                Some(place) => Err(place),
                None => Ok(true),
            },
        },
    }
}

// Both stand.
fn choose_open(first: Option<u64>, second: Option<u64>) -> Result<bool, DiskPlace>
    ensures { result ≡ chosen_open first second }
{
    let Some(one) = first else {
        return Err(DiskPlace { disk: 1, place: 9 });
    };
    let Some(two) = second else {
        return Err(DiskPlace { disk: 2, place: 9 });
    };
    if two <= one { Ok(false) } else { Ok(true) }
}
