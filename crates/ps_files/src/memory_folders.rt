//! A file system in memory that tells its steps.
ghost use Rattle.std.specs.Prelude.{◌≡◌, [], ◌∷◌, None, Some, IfSome, IfNone};
ghost use Rattle.ps_files.specs.FileCalls.{Adds, told_by};
ghost use Rattle.ps_files.specs.declared.folder_calls.Step.TheVariants.{CreateFolder, CreateFile, Lock, RemoveFolder, Rename, SyncFolder};

use crate::folder_calls::{FolderCalls, Step};
use crate::memory_file::MemoryFile;
use ps_ports::failing_calls::FailingCalls;
use ps_time::text::Text;
use std::alloc::Global;
use std::io;
use std::io::ErrorKind;

/// A file system in memory that keeps no names, but its steps. What is asked for by a name that ends in
/// one of two ways is there or not, as it was made. From a call on that finds no memory, or gets back a
/// file that found none, it doesn't tell its steps.
pub struct MemoryFolders {
    alloc: Global,
    // A pair that was left over, and a whole one.
    left: bool,
    there: bool,
    calls: FailingCalls,
    // What an opened file is like: its length, what one write takes at most, which of its calls fail.
    length: u64,
    most: usize,
    failing: Vec<u64>,
    steps: Vec<Step>,
    starved: bool,
}

impl Drop for MemoryFolders {
    fn drop(self) {
        let MemoryFolders {
            alloc: _,
            left: _,
            there: _,
            calls: _,
            length: _,
            most: _,
            failing: _,
            steps: _,
            starved: _,
        } = self;
    }
}

impl MemoryFolders {
    /// Whether a name that ends in `.new` is there, and whether each other one is. `failing` has the
    /// numbers of the calls that are to fail, the first call being number 1.
    pub fn new(alloc: Global, left: bool, there: bool, failing: Vec<u64>) -> MemoryFolders
        ensures { ⟦<MemoryFolders as FolderCalls>⟧.steps result ≡ Some [] }
    {
        MemoryFolders {
            alloc,
            left,
            there,
            calls: FailingCalls::new(failing),
            length: 0,
            most: usize::MAX,
            failing: Vec::new(alloc),
            steps: Vec::new(alloc),
            starved: false,
        }
    }

    /// A file system with a whole pair, of whose opened files each has this length and takes at most
    /// `most` bytes in a write. `failing` has the numbers of the calls of a file that are to fail.
    pub fn of_files(alloc: Global, length: u64, most: usize, failing: Vec<u64>) -> MemoryFolders
        ensures { ⟦<MemoryFolders as FolderCalls>⟧.steps result ≡ Some [] }
    {
        MemoryFolders {
            alloc,
            left: false,
            there: true,
            calls: FailingCalls::new(Vec::new(alloc)),
            length,
            most,
            failing,
            steps: Vec::new(alloc),
            starved: false,
        }
    }

    /// The steps that were done so far, as long as memory never ran out.
    pub fn steps(&self) -> &[Step] {
        &self.steps
    }

    fn note(&mut self, step: Step)
        ensures { Adds (told_by self.old.starved self.old.steps.items) (told_by self.new.starved self.new.steps.items) (step ∷ []) }
    {
        if self.steps.push(step).is_err() {
            self.starved = true;
        }
    }

    // Where there is no memory for a name, no more is told.
    fn name(&mut self, path: &str) -> Option<Text>
        ensures some { IfSome result (λ name. name ≡ path.now) }
        ensures told { IfSome result (λ _. told_by self.new.starved self.new.steps.items ≡ told_by self.old.starved self.old.steps.items) }
        ensures none { IfNone result (told_by self.new.starved self.new.steps.items ≡ None) }
    {
        match Text::new(self.alloc, path) {
            Ok(name) => Some(name),
            Err(_) => {
                self.starved = true;
                None
            }
        }
    }

    // Whether the next call is not to fail.
    fn next(&mut self) -> io::Result<()>
        ensures { told_by self.new.starved self.new.steps.items ≡ told_by self.old.starved self.old.steps.items }
    {
        if self.calls.next_fails() {
            return Err(ErrorKind::Other.into());
        }
        Ok(())
    }
}

impl FolderCalls for MemoryFolders {
    ghost use Rattle.ps_files.specs.FileCalls.{told_by};

    type File = MemoryFile;

    ghost steps = { λ f. told_by f.starved f.steps.items };

    fn exists(&mut self, path: &str) -> io::Result<bool> {
        self.next()?;
        Ok(if path.ends_with(".new") {
            self.left
        } else {
            self.there
        })
    }

    fn create_folder(&mut self, path: &str) -> io::Result<()> {
        self.next()?;
        if let Some(name) = self.name(path) {
            self.note(Step::CreateFolder(name));
        }
        Ok(())
    }

    fn create_file(&mut self, path: &str) -> io::Result<MemoryFile> {
        self.next()?;
        if let Some(name) = self.name(path) {
            self.note(Step::CreateFile(name));
        }
        Ok(MemoryFile::new(self.alloc, 0, usize::MAX, Vec::new(self.alloc)))
    }

    fn close_file(&mut self, file: MemoryFile) {
        match file.into_made() {
            Some(calls) => self.note(Step::CloseFile(calls)),
            None => self.starved = true,
        }
    }

    fn open_file(&mut self, _path: &str) -> io::Result<MemoryFile> {
        self.next()?;
        let Ok(failing) = self.failing.as_slice().to_vec(self.alloc) else {
            return Err(ErrorKind::OutOfMemory.into());
        };
        Ok(MemoryFile::new(self.alloc, self.length, self.most, failing))
    }

    fn open_or_create_file(&mut self, _path: &str) -> io::Result<MemoryFile> {
        self.next()?;
        Ok(MemoryFile::new(self.alloc, 0, usize::MAX, Vec::new(self.alloc)))
    }

    fn lock_file(&mut self, _file: &MemoryFile) -> io::Result<()> {
        self.next()?;
        self.note(Step::Lock);
        Ok(())
    }

    fn remove_folder(&mut self, _alloc: Global, path: &str) -> io::Result<()> {
        self.next()?;
        if let Some(name) = self.name(path) {
            self.note(Step::RemoveFolder(name));
        }
        Ok(())
    }

    fn rename(&mut self, from: &str, to: &str) -> io::Result<()> {
        self.next()?;
        if let Some(old) = self.name(from) {
            if let Some(new) = self.name(to) {
                self.note(Step::Rename(old, new));
            }
        }
        Ok(())
    }

    fn sync_folder(&mut self, path: &str) -> io::Result<()> {
        self.next()?;
        if let Some(name) = self.name(path) {
            self.note(Step::SyncFolder(name));
        }
        Ok(())
    }
}
