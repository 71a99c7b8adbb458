//! A rack over folders of the file system.
ghost use Rattle.std.specs.Prelude.{◌≡◌, [], ◌∷◌, ◌++◌, Bool, ◌<◌, ◌≤◌, ◌^◌, length, IfOk, IsErrOf, OnOk};
ghost use Rattle.ps_ports.specs.Causes.{counted, raised};
ghost use Rattle.ps_files.specs.FileCalls.{Adds};
ghost use Rattle.ps_files.specs.PairSteps.{AddsSuch, BringsPair, MakesFile, MakesMissing, MakesPair, OpensFolder, swept};
ghost use Rattle.ps_files.specs.declared.folder_calls.Step.TheVariants.{Lock};
ghost use Rattle.ps_disks.specs.declared.rack.RackFault.TheVariants.{Failed as rack_failed};

use crate::file_calls::FileCalls;
use crate::file_disk::{FileDisk, write_whole};
use crate::folder_calls::{FolderCalls, SystemFolders};
use ps_disks::disk::Disk;
use ps_disks::rack::{FRESH_FIRST, FRESH_SECOND, Rack, RackFault};
use ps_ports::faults::Faults;
use ps_time::memory::Memory;
use ps_time::text::Text;
use std::alloc::Global;
use std::fs::File;
use std::rt::Files;

/// A rack over folders. In a folder lie `lock` and the folder `pair`, with `first` and `second`.
///
/// An opening takes a lock on `lock`, which is given up with the first disk, at the latest when the
/// process ends, however it ends. A second opening fails meanwhile. A new pair is made as `pair.new`,
/// synced and renamed, so that `pair` is never there in part; a `pair.new` that was left over is removed.
/// The folder itself has to be there.
#[derive(Drop)]
pub struct FolderRack<C> {
    calls: C,
    faults: Faults,
}

impl<R: Files<File = File>> FolderRack<SystemFolders<R>> {
    /// A rack over the file system, without a fault so far.
    pub fn new(rt: R) -> FolderRack<SystemFolders<R>>
        ensures { ⟦<FolderRack<SystemFolders<R>> as Rack>⟧.rack_faults result ≡ 0 }
    {
        FolderRack::over(SystemFolders::new(rt))
    }
}

impl<C: FolderCalls> FolderRack<C> {
    /// A rack over the file system that these calls reach.
    pub fn over(calls: C) -> FolderRack<C>
        ensures { ⟦<FolderRack<C> as Rack>⟧.rack_faults result ≡ 0 }
    {
        FolderRack {
            calls,
            faults: Faults::none(),
        }
    }

    /// How many openings failed, and how often a disk that had failed was given back.
    pub fn faults(&self) -> u64
        ensures { result ≡ ⟦<FolderRack<C> as Rack>⟧.rack_faults self.now }
    {
        self.faults.count()
    }

    /// The file system.
    pub fn calls(&self) -> &C
        ensures { result.now ≡ self.now.calls }
    {
        &self.calls
    }
}

impl<C: FolderCalls> Rack for FolderRack<C> {
    ghost use Rattle.ps_ports.specs.Causes.{counted, counted_fits};

    type Disk = FileDisk<C::File>;

    ghost rack_faults = { λ r. counted r.faults };

    ghost tells_pairs = { ⊥ };

    ghost keeps_pair = { λ _ _ _ _. Unit {0} };

    ghost is_open = { λ _ _. Unit {0} };

    fn open_pair(
        &mut self,
        alloc: Global,
        folder: &str,
    ) -> Result<(FileDisk<C::File>, FileDisk<C::File>), RackFault>
        ensures counts { IfOk result (λ pair. (counted pair.0.faults ≡ 0) × (counted pair.1.faults ≡ 0)) }
        ensures later { counted self.old.faults ≤ counted self.new.faults }
        ensures failed { IsErrOf result rack_failed → counted self.new.faults ≡ raised (counted self.old.faults) }
        ensures no_fault { (IsErrOf result rack_failed → ⊥) → counted self.new.faults ≡ counted self.old.faults }
        ensures steps { OnOk result (OpensFolder folder.now (C.steps self.old.calls) (C.steps self.new.calls)) }
    {
        match open_files(&mut self.calls, alloc, folder) {
            Ok((first, second, lock)) => Ok((
                FileDisk::new(first, Some(lock)),
                FileDisk::new(second, None),
            )),
            Err(RackFault::Memory) => Err(RackFault::Memory),
            Err(RackFault::Failed) => {
                self.faults.raise();
                Err(RackFault::Failed)
            }
        }
    }

    fn close_pair(&mut self, _folder: &str, first: FileDisk<C::File>, second: FileDisk<C::File>) {
        if first.faults() != 0 || second.faults() != 0 {
            self.faults.raise();
        }
    }

    ghost one_pair = { λ _ _ _ _ _ _ no. absurd no };

    ghost rack_faults_fit = { λ r. counted_fits r.faults };
}

#[tactic(auto, using(crate::proofs::FolderLemmas::folder_opened))]
fn open_files<C: FolderCalls>(
    calls: &mut C,
    alloc: Global,
    folder: &str,
) -> Result<(C::File, C::File, C::File), RackFault>
    ensures { OnOk result (OpensFolder folder.now (C.steps calls.old) (C.steps calls.new)) }
{
    let lock = take_lock(calls, alloc, folder)?;
    make_pair(calls, alloc, folder)?;
    let first = open_in(calls, alloc, folder, "/pair/first")?;
    let second = open_in(calls, alloc, folder, "/pair/second")?;
    Ok((first, second, lock))
}

fn join(alloc: Global, folder: &str, rest: &str) -> Result<Text, Memory>
    ensures { IfOk result (λ path. path ≡ folder.now ++ rest.now) }
{
    let mut path = String::new(alloc);
    path.push_str(folder)?;
    path.push_str(rest)?;
    Ok(Text::from_string(path))
}

fn take_lock<C: FolderCalls>(
    calls: &mut C,
    alloc: Global,
    folder: &str,
) -> Result<C::File, RackFault>
    ensures { OnOk result (Adds (C.steps calls.old) (C.steps calls.new) (Lock ∷ [])) }
{
    let path = join(alloc, folder, "/lock")?;
    let lock = calls.open_or_create_file(path.as_str())?;
    calls.lock_file(&lock)?;
    Ok(lock)
}

fn open_in<C: FolderCalls>(
    calls: &mut C,
    alloc: Global,
    folder: &str,
    name: &str,
) -> Result<C::File, RackFault>
    ensures { C.steps calls.new ≡ C.steps calls.old }
{
    let path = join(alloc, folder, name)?;
    Ok(calls.open_file(path.as_str())?)
}

// The folder above is synced also for a pair that was there: whoever renamed it may have ended before.
fn make_pair<C: FolderCalls>(calls: &mut C, alloc: Global, folder: &str) -> Result<(), RackFault>
    ensures { OnOk result (AddsSuch (C.steps calls.old) (C.steps calls.new) (BringsPair folder.now)) }
{
    let made = join(alloc, folder, "/pair.new")?;
    let pair = join(alloc, folder, "/pair")?;
    sweep(calls, alloc, made.as_str())?;
    make_missing(calls, alloc, made.as_str(), pair.as_str())?;
    Ok(calls.sync_folder(folder)?)
}

fn sweep<C: FolderCalls>(calls: &mut C, alloc: Global, made: &str) -> Result<(), RackFault>
    ensures { OnOk result ((left : Bool) × Adds (C.steps calls.old) (C.steps calls.new) (swept left made.now)) }
{
    if calls.exists(made)? {
        calls.remove_folder(alloc, made)?;
    }
    Ok(())
}

fn make_missing<C: FolderCalls>(
    calls: &mut C,
    alloc: Global,
    made: &str,
    pair: &str,
) -> Result<(), RackFault>
    ensures { OnOk result ((there : Bool) × AddsSuch (C.steps calls.old) (C.steps calls.new) (MakesMissing there made.now pair.now)) }
{
    if calls.exists(pair)? {
        return Ok(());
    }
    make_new(calls, alloc, made, pair)
}

#[tactic(auto, using(crate::proofs::FolderLemmas::pair_made))]
fn make_new<C: FolderCalls>(
    calls: &mut C,
    alloc: Global,
    made: &str,
    pair: &str,
) -> Result<(), RackFault>
    ensures { OnOk result (AddsSuch (C.steps calls.old) (C.steps calls.new) (MakesPair made.now pair.now)) }
{
    calls.create_folder(made)?;
    write_new(calls, alloc, made, "/first", &FRESH_FIRST)?;
    write_new(calls, alloc, made, "/second", &FRESH_SECOND)?;
    calls.sync_folder(made)?;
    Ok(calls.rename(made, pair)?)
}

fn write_new<C: FolderCalls>(
    calls: &mut C,
    alloc: Global,
    folder: &str,
    name: &str,
    bytes: &[u8],
) -> Result<(), RackFault>
    requires { length bytes.now < 2 ^ 64 }
    ensures { OnOk result (AddsSuch (C.steps calls.old) (C.steps calls.new) (MakesFile (folder.now ++ name.now) bytes.now)) }
{
    let path = join(alloc, folder, name)?;
    let mut file = calls.create_file(path.as_str())?;
    write_whole(&mut file, 0, bytes)?;
    file.sync_all()?;
    calls.close_file(file);
    Ok(())
}
