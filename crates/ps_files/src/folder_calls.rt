//! The calls of the system on folders and on files by their names.
ghost use Rattle.std.specs.Prelude.{◌≡◌, [], ◌∷◌, List, Option, IfOk, OnOk};
ghost use Rattle.ps_files.specs.FileCalls.{Adds};
ghost use Rattle.ps_files.specs.PairSteps.{AddsSuch, Closes, IsUntouched};
ghost use Rattle.ps_files.specs.declared.folder_calls.Step.{Step as Made};
ghost use Rattle.ps_files.specs.declared.folder_calls.Step.TheVariants.{CreateFolder, CreateFile, Lock, RemoveFolder, Rename, SyncFolder};

use crate::file_calls::{FileCalls, MadeCall};
use ps_time::items::Items;
use ps_time::text::Text;
use std::alloc::Global;
use std::fs::{File, OpenFile, OpenOptions};
use std::rt::Files;
use std::{fs, io};

/// A call that makes, moves or removes a name, or makes sure of names, and was done.
pub enum Step {
    CreateFolder(Text),
    CreateFile(Text),
    /// All calls that were made on the file.
    CloseFile(Items<MadeCall>),
    /// With all that is in it.
    RemoveFolder(Text),
    /// From one name to the other.
    Rename(Text, Text),
    SyncFolder(Text),
    Lock,
}

impl Drop for Step {
    fn drop(self) {
        match self {
            Step::CreateFolder(_) => {}
            Step::CreateFile(_) => {}
            Step::CloseFile(_) => {}
            Step::RemoveFolder(_) => {}
            Step::Rename(_, _) => {}
            Step::SyncFolder(_) => {}
            Step::Lock => {}
        }
    }
}

/// The file system, by its calls.
pub trait FolderCalls {
    type File: FileCalls + Drop;

    // The steps that were done so far, where they are told. Those of the system aren't.
    ghost steps: { Self → Option (List Made) };

    fn exists(&mut self, path: &str) -> io::Result<bool>
        ensures steps { steps self.new ≡ steps self.old };

    fn create_folder(&mut self, path: &str) -> io::Result<()>
        ensures steps { OnOk result (Adds (steps self.old) (steps self.new) (CreateFolder path.now ∷ [])) };

    /// Makes a new file, to be written.
    fn create_file(&mut self, path: &str) -> io::Result<Self::File>
        ensures steps { OnOk result (Adds (steps self.old) (steps self.new) (CreateFile path.now ∷ [])) }
        ensures untouched { IfOk result (λ file. IsUntouched (Self.File.made file)) };

    /// Gives a file back to the system.
    fn close_file(&mut self, file: Self::File)
        ensures steps { AddsSuch (steps self.old) (steps self.new) (Closes (Self.File.made file)) };

    /// Opens a file that is there, to be read and written.
    fn open_file(&mut self, path: &str) -> io::Result<Self::File>
        ensures steps { steps self.new ≡ steps self.old };

    /// Opens a file, made where it isn't there.
    fn open_or_create_file(&mut self, path: &str) -> io::Result<Self::File>
        ensures steps { steps self.new ≡ steps self.old };

    /// Takes the lock on a file, without waiting. It is given up with the file.
    fn lock_file(&mut self, file: &Self::File) -> io::Result<()>
        ensures steps { OnOk result (Adds (steps self.old) (steps self.new) (Lock ∷ [])) };

    fn remove_folder(&mut self, alloc: Global, path: &str) -> io::Result<()>
        ensures steps { OnOk result (Adds (steps self.old) (steps self.new) (RemoveFolder path.now ∷ [])) };

    fn rename(&mut self, from: &str, to: &str) -> io::Result<()>
        ensures steps { OnOk result (Adds (steps self.old) (steps self.new) (Rename from.now to.now ∷ [])) };

    fn sync_folder(&mut self, path: &str) -> io::Result<()>
        ensures steps { OnOk result (Adds (steps self.old) (steps self.new) (SyncFolder path.now ∷ [])) };
}

/// The real file system. It is the trusted edge: one call of std in each.
#[derive(Drop)]
pub struct SystemFolders<R> {
    rt: R,
}

impl<R: Files<File = File>> SystemFolders<R> {
    /// The calls on the file system that the runtime gives.
    pub fn new(rt: R) -> SystemFolders<R> {
        SystemFolders { rt }
    }
}

impl<R: Files<File = File>> FolderCalls for SystemFolders<R> {
    ghost use Rattle.std.specs.Prelude.{None};

    type File = File;

    ghost steps = { λ _. None };

    fn exists(&mut self, path: &str) -> io::Result<bool> {
        fs::exists(&self.rt, path)
    }

    fn create_folder(&mut self, path: &str) -> io::Result<()> {
        fs::create_dir(&self.rt, path)
    }

    fn create_file(&mut self, path: &str) -> io::Result<File> {
        File::create_new(&self.rt, path)
    }

    fn close_file(&mut self, file: File) {
        drop(file);
    }

    fn open_file(&mut self, path: &str) -> io::Result<File> {
        OpenOptions::new()
            .read(true)
            .write(true)
            .open(&self.rt, path)
    }

    fn open_or_create_file(&mut self, path: &str) -> io::Result<File> {
        OpenOptions::new()
            .read(true)
            .write(true)
            .create(true)
            .open(&self.rt, path)
    }

    fn lock_file(&mut self, file: &File) -> io::Result<()> {
        Ok(file.try_lock()?)
    }

    fn remove_folder(&mut self, alloc: Global, path: &str) -> io::Result<()> {
        self.rt.remove_dir_all(alloc, path)
    }

    fn rename(&mut self, from: &str, to: &str) -> io::Result<()> {
        fs::rename(&self.rt, from, to)
    }

    fn sync_folder(&mut self, path: &str) -> io::Result<()> {
        File::open(&self.rt, path)?.sync_all()
    }
}
