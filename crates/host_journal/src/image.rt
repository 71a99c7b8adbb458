//! An image, written by its caller into a journal's own buffer.
ghost use Rattle.std.specs.Prelude.{◌≡◌, ◌+◌, ◌≤◌, ◌<◌, ◌^◌, ◌++◌, [], length, drop, OnOk, OnErr, IsOk, vec_capacity};
ghost use Rattle.std.specs.Int.{w32, w64, to_be_bytes};
ghost use Rattle.host_journal.specs.State.{image_bytes};

use ps_time::memory::Memory;
use std::marker::Model;

/// What lies before an image in its buffer: a generation and a length.
const FRONT: [u8; 12] = [0; 12];

/// A snapshot while it is written, in the buffer of the journal that it is for.
#[derive(Drop)]
pub struct SnapshotImage {
    bytes: Vec<u8>,
}

impl Model for SnapshotImage {
    ghost use Rattle.std.specs.Prelude.{◌≤◌, length, drop, vec_capacity};
    ghost use Rattle.host_journal.specs.Image.{ImageState};

    ghost Value = { ImageState };

    ghost view = { λ i. record { bytes = drop 12 i.bytes.items; room = vec_capacity i.bytes } };

    ghost invariant = { λ i. 12 ≤ length i.bytes.items };
}

impl SnapshotImage {
    /// An empty image in this buffer.
    pub(crate) fn begin(buffer: Vec<u8>) -> SnapshotImage
        requires { 12 ≤ vec_capacity buffer }
        ensures bytes { result.bytes ≡ [] }
        ensures room { vec_capacity buffer ≤ result.room }
    {
        let mut bytes = buffer;
        put_front(&mut bytes);
        SnapshotImage { bytes }
    }

    /// Adds bytes. Takes no memory where the room allows for them.
    pub fn write(&mut self, bytes: &[u8]) -> Result<(), Memory>
        ensures ok { OnOk result (self.new.bytes ≡ self.old.bytes ++ bytes.now) }
        ensures err { OnErr result (self.new.bytes ≡ self.old.bytes) }
        ensures fits { length self.old.bytes + length bytes.now + 12 ≤ self.old.room → IsOk result }
        ensures room { self.old.room ≤ self.new.room }
    {
        self.bytes.extend_from_slice(bytes)?;
        Ok(())
    }

    /// Its buffer, for a writer of bytes: what lies before the image, and then its bytes.
    pub fn into_buffer(self) -> Vec<u8>
        ensures front { 12 ≤ length result.items }
        ensures bytes { drop 12 result.items ≡ self.bytes }
        ensures room { self.room ≤ vec_capacity result }
    {
        let SnapshotImage { bytes } = self;
        bytes
    }

    /// The image that a buffer holds to which bytes were added.
    pub fn of_buffer(buffer: Vec<u8>) -> SnapshotImage
        requires { 12 ≤ length buffer.items }
        ensures bytes { result.bytes ≡ drop 12 buffer.items }
        ensures room { vec_capacity buffer ≤ result.room }
    {
        SnapshotImage { bytes: buffer }
    }

    /// Makes room for what is written behind it.
    pub fn reserve_end(&mut self) -> Result<(), Memory>
        ensures room { OnOk result (length self.new.bytes + 13 ≤ self.new.room) }
        ensures same { self.new.bytes ≡ self.old.bytes }
    {
        self.bytes.reserve(1)?;
        Ok(())
    }

    /// How many bytes it has.
    pub fn len(&self) -> usize
        ensures { result ≡ length self.now.bytes }
    {
        self.bytes.len() - 12
    }

    /// What is written behind a head. Takes no memory.
    pub(crate) fn into_piece(self, generation: u64) -> Vec<u8>
        requires room { length self.bytes + 13 ≤ self.room }
        requires bound { length self.bytes < 2 ^ 32 }
        ensures items { result.items ≡ image_bytes generation self.bytes }
        ensures capacity { self.room ≤ vec_capacity result }
    {
        let size = self.len() as u32;
        let SnapshotImage { bytes } = self;
        let mut piece = bytes;
        put_numbers(&mut piece, generation, size);
        let _gate = piece.push(0);
        piece
    }
}

// Takes no memory.
fn put_front(buffer: &mut Vec<u8>)
    requires { 12 ≤ vec_capacity buffer.old }
    ensures items { length buffer.new.items ≡ 12 }
    ensures capacity { vec_capacity buffer.old ≤ vec_capacity buffer.new }
{
    buffer.clear();
    let _front = buffer.extend_from_slice(&FRONT);
}

fn put_numbers(piece: &mut [u8], generation: u64, size: u32)
    requires { 12 ≤ length piece.old }
    ensures { piece.new ≡ to_be_bytes w64 generation ++ (to_be_bytes w32 size ++ drop 12 piece.old) }
{
    piece[..8].copy_from_slice(&generation.to_be_bytes());
    piece[8..12].copy_from_slice(&size.to_be_bytes());
}
