//! A file in memory that tells its calls.
ghost use Rattle.std.specs.Prelude.{◌≡◌, [], Some, is_ok};
ghost use Rattle.ps_files.specs.FileCalls.{Adds, one, told_by};
ghost use Rattle.ps_files.specs.declared.file_calls.FileCall.TheVariants.{ReadAt, WriteAt, Length, SetLength, SyncData, SyncAll};

use crate::file_calls::{FileCall, FileCalls, MadeCall};
use ps_ports::failing_calls::FailingCalls;
use ps_time::items::Items;
use std::alloc::Global;
use std::io;
use std::io::ErrorKind;

/// A file in memory that keeps no bytes, but its length and its calls. A write takes at most so many
/// bytes. From a call on that finds no memory it doesn't tell its calls.
pub struct MemoryFile {
    alloc: Global,
    length: u64,
    most: usize,
    calls: FailingCalls,
    made: Vec<MadeCall>,
    starved: bool,
}

impl Drop for MemoryFile {
    fn drop(self) {
        let MemoryFile {
            alloc: _,
            length: _,
            most: _,
            calls: _,
            made: _,
            starved: _,
        } = self;
    }
}

impl MemoryFile {
    /// A file of this length, of which a write takes at most `most` bytes. `failing` has the numbers of
    /// the calls that are to fail, the first call being number 1.
    pub fn new(alloc: Global, length: u64, most: usize, failing: Vec<u64>) -> MemoryFile
        ensures { ⟦<MemoryFile as FileCalls>⟧.made result ≡ Some [] }
    {
        MemoryFile {
            alloc,
            length,
            most,
            calls: FailingCalls::new(failing),
            made: Vec::new(alloc),
            starved: false,
        }
    }

    /// The calls so far, as long as memory never ran out.
    pub fn made(&self) -> &[MadeCall] {
        &self.made
    }

    /// The calls so far, moved out; none where memory ran out.
    pub fn into_made(self) -> Option<Items<MadeCall>>
        ensures { result ≡ ⟦<MemoryFile as FileCalls>⟧.made self }
    {
        let MemoryFile {
            alloc: _,
            length: _,
            most: _,
            calls: _,
            made,
            starved,
        } = self;
        if starved {
            return None;
        }
        Some(Items::from_vec(made))
    }

    fn note(&mut self, call: FileCall, done: bool)
        ensures { Adds (told_by self.old.starved self.old.made.items) (told_by self.new.starved self.new.made.items) (one call done) }
    {
        if self.made.push(MadeCall { call, done }).is_err() {
            self.starved = true;
        }
    }

    // A call whose answer is its success alone.
    fn answer(&mut self, call: FileCall) -> io::Result<()>
        ensures { Adds (told_by self.old.starved self.old.made.items) (told_by self.new.starved self.new.made.items) (one call (is_ok result)) }
    {
        let fails = self.calls.next_fails();
        self.note(call, !fails);
        if fails {
            return Err(ErrorKind::Other.into());
        }
        Ok(())
    }

    fn note_write(&mut self, at: u64, bytes: &[u8], done: bool)
        ensures { Adds (told_by self.old.starved self.old.made.items) (told_by self.new.starved self.new.made.items) (one (WriteAt at bytes.now) done) }
    {
        match bytes.to_vec(self.alloc) {
            Ok(piece) => self.note(FileCall::WriteAt(at, Items::from_vec(piece)), done),
            Err(_) => self.starved = true,
        }
    }
}

impl FileCalls for MemoryFile {
    ghost use Rattle.ps_files.specs.FileCalls.{told_by};

    ghost made = { λ f. told_by f.starved f.made.items };

    fn read_at(&mut self, at: u64, _buf: &mut [u8]) -> io::Result<usize> {
        self.answer(FileCall::ReadAt(at))?;
        Ok(0)
    }

    fn write_at(&mut self, at: u64, bytes: &[u8]) -> io::Result<usize> {
        let count = bytes.len().min(self.most);
        if self.calls.next_fails() {
            self.note_write(at, &[], false);
            return Err(ErrorKind::Other.into());
        }
        self.note_write(at, &bytes[..count], true);
        Ok(count)
    }

    fn length(&mut self) -> io::Result<u64> {
        let length = self.length;
        if self.calls.next_fails() {
            self.note(FileCall::Length(0), false);
            return Err(ErrorKind::Other.into());
        }
        self.note(FileCall::Length(length), true);
        Ok(length)
    }

    fn set_length(&mut self, len: u64) -> io::Result<()> {
        self.length = len;
        self.answer(FileCall::SetLength(len))
    }

    fn sync_data(&mut self) -> io::Result<()> {
        self.answer(FileCall::SyncData)
    }

    fn sync_all(&mut self) -> io::Result<()> {
        self.answer(FileCall::SyncAll)
    }
}
