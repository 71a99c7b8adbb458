//! The calls of the system on an open file.
ghost use Rattle.std.specs.Prelude.{List, Option, is_ok};
ghost use Rattle.std.specs.Io.{ReadsAtMost, WritesAtMost};
ghost use Rattle.ps_files.specs.FileCalls.{Adds, one, taken, told_length};
ghost use Rattle.ps_files.specs.declared.file_calls.FileCall.TheVariants.{ReadAt, WriteAt, Length, SetLength, SyncData, SyncAll};
ghost use Rattle.ps_files.specs.declared.file_calls.MadeCall.{MadeCall as Made};

use ps_time::items::Items;
use std::fs::{File, OpenFile};
use std::io;
use std::os::unix::fs::FileExt;

/// A call on an open file.
#[derive(Drop)]
pub enum FileCall {
    /// The place.
    ReadAt(u64),
    /// The place and the bytes that were taken.
    WriteAt(u64, Items<u8>),
    /// The length that was told.
    Length(u64),
    /// The length from now on.
    SetLength(u64),
    /// The bytes, and what is needed to read them, are on the device.
    SyncData,
    /// So is all else that the system keeps of the file.
    SyncAll,
}

/// A call, and whether it was done. The others failed.
#[derive(Drop)]
pub struct MadeCall {
    pub call: FileCall,
    pub done: bool,
}

/// An open file, by the calls of the system, each as the system has it: a write may be short.
pub trait FileCalls {
    // The calls so far, where the file tells them. A file of the system doesn't.
    ghost made: { Self → Option (List Made) };

    fn read_at(&mut self, at: u64, buf: &mut [u8]) -> io::Result<usize>
        ensures bound { ReadsAtMost result buf.new }
        ensures made { Adds (made self.old) (made self.new) (one (ReadAt at) (is_ok result)) };

    fn write_at(&mut self, at: u64, bytes: &[u8]) -> io::Result<usize>
        ensures bound { WritesAtMost result bytes.now }
        ensures made { Adds (made self.old) (made self.new) (one (WriteAt at (taken result bytes.now)) (is_ok result)) };

    fn length(&mut self) -> io::Result<u64>
        ensures made { Adds (made self.old) (made self.new) (one (Length (told_length result)) (is_ok result)) };

    fn set_length(&mut self, len: u64) -> io::Result<()>
        ensures made { Adds (made self.old) (made self.new) (one (SetLength len) (is_ok result)) };

    fn sync_data(&mut self) -> io::Result<()>
        ensures made { Adds (made self.old) (made self.new) (one SyncData (is_ok result)) };

    fn sync_all(&mut self) -> io::Result<()>
        ensures made { Adds (made self.old) (made self.new) (one SyncAll (is_ok result)) };
}

// The trusted edge: one call of std in each.
impl FileCalls for File {
    ghost use Rattle.std.specs.Prelude.{None};

    ghost made = { λ _. None };

    fn read_at(&mut self, at: u64, buf: &mut [u8]) -> io::Result<usize> {
        FileExt::read_at(&*self, buf, at)
    }

    fn write_at(&mut self, at: u64, bytes: &[u8]) -> io::Result<usize> {
        FileExt::write_at(&*self, bytes, at)
    }

    fn length(&mut self) -> io::Result<u64> {
        Ok(OpenFile::metadata(&*self)?.len())
    }

    fn set_length(&mut self, len: u64) -> io::Result<()> {
        OpenFile::set_len(&*self, len)
    }

    fn sync_data(&mut self) -> io::Result<()> {
        OpenFile::sync_data(&*self)
    }

    fn sync_all(&mut self) -> io::Result<()> {
        OpenFile::sync_all(&*self)
    }
}
