//! Things that were given out and come back.
ghost use Rattle.std.specs.Prelude.{◌≡◌, ◌<◌, [], OnOk, OnErr};
ghost use Rattle.ps_doors.specs.Returned.{after_going, after_coming};

use ps_time::memory::Memory;
use std::alloc::Global;
use std::marker::Model;

/// Things that came back, with room for those that are out.
#[derive(Drop)]
pub struct Returned<T> {
    back: Vec<T>,
    out: usize,
}

impl<T> Model for Returned<T> {
    ghost use Rattle.std.specs.Prelude.{◌+◌, ◌≤◌, vec_len, vec_capacity};
    ghost use Rattle.ps_doors.specs.Returned.{ReturnedState};

    ghost Value = { ReturnedState T };

    ghost view = { λ r. record { back = r.back.items; out = r.out } };

    ghost invariant = { λ r. vec_len r.back + r.out ≤ vec_capacity r.back };
}

impl<T: Drop> Returned<T> {
    /// Nothing is out, and nothing came back.
    pub fn new(alloc: Global) -> Returned<T>
        ensures { result ≡ record { back = []; out = 0 } }
    {
        Returned {
            back: Vec::new(alloc),
            out: 0,
        }
    }

    /// Those that came back, in their order.
    pub fn back(&self) -> &[T]
        ensures { result.now ≡ self.now.back }
    {
        self.back.as_slice()
    }

    /// Makes room for one that goes out.
    pub fn let_go(&mut self) -> Result<(), Memory>
        ensures ok { OnOk result (self.new ≡ after_going self.old) }
        ensures err { OnErr result (self.new ≡ self.old) }
    {
        let out = self.out.checked_add(1).ok_or(Memory)?;
        self.back.reserve(out)?;
        self.out = out;
        Ok(())
    }

    /// Takes no memory.
    pub fn take_back(&mut self, item: T)
        requires { 0 < self.old.out }
        ensures { self.new ≡ after_coming self.old item }
    {
        self.out -= 1;
        self.back.push_reserved(item);
    }
}
