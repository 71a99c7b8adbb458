//! Bytes that are read piece by piece.
ghost use Rattle.std.specs.Prelude.{◌≡◌, length, take, drop, min};

use std::marker::Model;

/// Bytes of which a front was read.
#[derive(Drop)]
pub struct Unread {
    bytes: Vec<u8>,
    place: usize,
}

impl Model for Unread {
    ghost use Rattle.std.specs.Prelude.{◌≤◌, ℕ, List, drop, vec_len};

    ghost Value = { List ℕ };

    ghost view = { λ u. drop u.place u.bytes.items };

    ghost invariant = { λ u. u.place ≤ vec_len u.bytes };
}

impl Unread {
    /// These bytes, none of which is read yet.
    pub fn new(bytes: Vec<u8>) -> Unread
        ensures { result ≡ bytes.items }
    {
        Unread { bytes, place: 0 }
    }

    /// The bytes that are left.
    pub fn as_slice(&self) -> &[u8]
        ensures { result.now ≡ self.now }
    {
        &self.bytes[self.place..]
    }

    /// Reads as many of the next bytes as fit, to the front of `buf`.
    pub fn read(&mut self, buf: &mut [u8]) -> usize
        ensures count { result ≡ min (length buf.old) (length self.old) }
        ensures front { take result buf.new ≡ take result self.old }
        ensures rest { self.new ≡ drop result self.old }
    {
        let left = self.as_slice();
        let count = buf.len().min(left.len());
        buf[..count].copy_from_slice(&left[..count]);
        self.place += count;
        count
    }
}
