//! A disk over a file. That a real file is such a disk is claimed nowhere.
ghost use Rattle.std.specs.Prelude.{◌≡◌, ℕ, ◌+◌, ◌<◌, ◌≤◌, ◌^◌, Option, IsErr, OnOk, is_ok, length, if◌then◌else◌, false};
ghost use Rattle.std.specs.Io.{ReadsAtMost};
ghost use Rattle.ps_ports.specs.Causes.{counted};
ghost use Rattle.ps_disks.specs.Disk.{CountsFault};
ghost use Rattle.ps_files.specs.FileCalls.{Adds, one, WroteWhole, cut_calls, sync_call};
ghost use Rattle.ps_files.specs.declared.file_calls.FileCall.TheVariants.{ReadAt};

use crate::file_calls::FileCalls;
use ps_disks::disk::Disk;
use ps_ports::fault::Failed;
use ps_ports::faults::Faults;
use std::io;
use std::io::ErrorKind;

/// A disk over a file. Each error of the system fails the call and is counted. A sync brings the bytes
/// to the device, and after a cut the length, too.
#[derive(Drop)]
pub struct FileDisk<F> {
    file: F,
    // Of a pair one disk holds its lock, which goes when the disk is dropped.
    _lock: Option<F>,
    // A cut made a length since the last sync.
    was_cut: bool,
    faults: Faults,
}

impl<F: FileCalls> FileDisk<F> {
    /// A disk over an open file. `lock` is held as long as the disk is.
    pub(crate) fn new(file: F, lock: Option<F>) -> FileDisk<F>
        ensures { ⟦<FileDisk<F> as Disk>⟧.disk_faults result ≡ 0 }
    {
        FileDisk {
            file,
            _lock: lock,
            was_cut: false,
            faults: Faults::none(),
        }
    }

    /// How many calls failed.
    pub fn faults(&self) -> u64
        ensures { result ≡ ⟦<FileDisk<F> as Disk>⟧.disk_faults self.now }
    {
        self.faults.count()
    }

    /// The file.
    pub fn file(&self) -> &F
        ensures { result.now ≡ self.now.file }
    {
        &self.file
    }
}

impl<F: FileCalls> Disk for FileDisk<F> {
    ghost use Rattle.std.specs.Prelude.{[], None};
    ghost use Rattle.ps_ports.specs.Causes.{counted, counted_fits};

    ghost premise = { ⊥ };

    ghost seen = { λ _. [] };

    ghost may_leave = { λ _ _. Unit {0} };

    ghost moment = { λ _. 0 };

    ghost left_since = { λ _ _ _. Unit {0} };

    ghost told = { λ _. None };

    ghost disk_faults = { λ d. counted d.faults };

    ghost calls_advance = { λ _ _. Unit {0} };

    // One read of the file, and its answer.
    fn read(&mut self, at: u64, buf: &mut [u8]) -> Result<usize, Failed>
        ensures bound { ReadsAtMost result buf.new }
        ensures cause { CountsFault (counted self.old.faults) (counted self.new.faults) result }
        ensures made { Adds (F.made self.old.file) (F.made self.new.file) (one (ReadAt at) (is_ok result)) }
    {
        match self.file.read_at(at, buf) {
            Ok(count) => Ok(count),
            Err(_) => {
                self.faults.raise();
                Err(Failed)
            }
        }
    }

    // A write that was done is written whole.
    fn write_at(&mut self, at: u64, bytes: &[u8]) -> Result<(), Failed>
        ensures too_far { 2 ^ 64 ≤ at + length bytes.now → IsErr result }
        ensures cause { CountsFault (counted self.old.faults) (counted self.new.faults) result }
        ensures whole { OnOk result (WroteWhole (F.made self.old.file) (F.made self.new.file) at bytes.now) }
    {
        let in_reach = at.checked_add(bytes.len() as u64).is_some();
        if in_reach && write_whole(&mut self.file, at, bytes).is_ok() {
            return Ok(());
        }
        self.faults.raise();
        Err(Failed)
    }

    // The length is asked for, and made where it is greater.
    fn cut(&mut self, len: u64) -> Result<(), Failed>
        ensures cause { CountsFault (counted self.old.faults) (counted self.new.faults) result }
        ensures made { OnOk result ((n : ℕ) × Adds (F.made self.old.file) (F.made self.new.file) (cut_calls len n)) }
    {
        self.was_cut = true;
        if cut_file(&mut self.file, len).is_ok() {
            return Ok(());
        }
        self.faults.raise();
        Err(Failed)
    }

    // One sync of this file, and its answer.
    fn sync(&mut self) -> Result<(), Failed>
        ensures cause { CountsFault (counted self.old.faults) (counted self.new.faults) result }
        ensures made { Adds (F.made self.old.file) (F.made self.new.file) (one (sync_call self.old.was_cut) (is_ok result)) }
        ensures was_cut { self.new.was_cut ≡ (if is_ok result then false else self.old.was_cut) }
    {
        if sync_file(&mut self.file, self.was_cut).is_err() {
            self.faults.raise();
            return Err(Failed);
        }
        self.was_cut = false;
        Ok(())
    }

    ghost reads_now = { λ _ no. absurd no };

    ghost counts_now = { λ _ _ _ no. absurd no };

    ghost disk_faults_fit = { λ d. counted_fits d.faults };

    ghost calls_advance_refl = { λ _. tt };

    ghost calls_advance_trans = { λ _ _ _ _ _. tt };

    ghost only_now = { λ _ _ no. absurd no };
}

/// Writes the bytes whole, in as many writes as the file needs. A write that takes none is an error.
pub(crate) fn write_whole<F: FileCalls>(file: &mut F, at: u64, bytes: &[u8]) -> io::Result<()>
    requires { at + length bytes.now < 2 ^ 64 }
    ensures { OnOk result (WroteWhole (F.made file.old) (F.made file.new) at bytes.now) }
{
    let mut rest = bytes;
    let mut place = at;
    while !rest.is_empty() {
        let count = file.write_at(place, rest)?;
        if count == 0 {
            return Err(ErrorKind::WriteZero.into());
        }
        place += count as u64;
        rest = &rest[count..];
    }
    Ok(())
}

fn cut_file<F: FileCalls>(file: &mut F, len: u64) -> io::Result<()>
    ensures { OnOk result ((n : ℕ) × Adds (F.made file.old) (F.made file.new) (cut_calls len n)) }
{
    if file.length()? <= len {
        return Ok(());
    }
    file.set_length(len)
}

fn sync_file<F: FileCalls>(file: &mut F, was_cut: bool) -> io::Result<()>
    ensures { Adds (F.made file.old) (F.made file.new) (one (sync_call was_cut) (is_ok result)) }
{
    if was_cut {
        file.sync_all()
    } else {
        file.sync_data()
    }
}
