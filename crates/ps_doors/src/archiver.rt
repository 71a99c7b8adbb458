//! Archivers.
ghost use Rattle.std.specs.Prelude.{◌≡◌, ℕ, List, Option, IfOk};
ghost use Rattle.ps_doors.specs.Archiver.{HasLength};
ghost use Rattle.ps_doors.specs.Told.{TellsMore};
ghost use Rattle.ps_doors.specs.declared.archiver.Attempt.{Attempt as Made};

use ps_time::key::RunKey;
use ps_time::memory::Memory;
use ps_time::moment::Length;
use ps_time::text::Text;
use std::alloc::Global;

/// What came of an attempt.
pub enum Tried {
    Succeeded,
    Failed {
        error: Text,
        /// How long to wait before the next attempt, in seconds, where the archiver asks for one.
        retry: Option<Length>,
    },
    Memory,
}

impl Drop for Tried {
    fn drop(self) {
        match self {
            Tried::Succeeded => {}
            Tried::Failed { error: _, retry: _ } => {}
            Tried::Memory => {}
        }
    }
}

impl Tried {
    /// An equal outcome.
    pub fn copy(&self, alloc: Global) -> Result<Tried, Memory>
        ensures { IfOk result (λ made. made ≡ self.now) }
    {
        match self {
            Tried::Succeeded => Ok(Tried::Succeeded),
            Tried::Failed { error, retry } => Ok(Tried::Failed {
                error: error.copy(alloc)?,
                retry: *retry,
            }),
            Tried::Memory => Ok(Tried::Memory),
        }
    }
}

/// An attempt that was made, and its outcome.
pub struct Attempt {
    pub key: RunKey,
    /// How many attempts were made before it.
    pub tried: u32,
    /// The archiver's settings, a JSON text.
    pub settings: Text,
    /// The merged result, a JSON text.
    pub merged: Text,
    pub outcome: Tried,
}

impl Drop for Attempt {
    fn drop(self) {
        let Attempt {
            key: _,
            tried: _,
            settings: _,
            merged: _,
            outcome: _,
        } = self;
    }
}

/// What archives the results of runs.
pub trait Archiver: Drop {
    // The name.
    ghost label: { Self → List ℕ };

    // The attempts so far, where they are told.
    ghost attempts: { Self → Option (List Made) };

    /// The name by which tasks ask for it. It never changes.
    fn name(&self) -> &str
        ensures { result.now ≡ label self.now };

    /// Tries once to archive the merged result of a run. `tried` is how many attempts were made before.
    fn attempt(
        &mut self,
        alloc: Global,
        key: RunKey,
        tried: u32,
        settings: &str,
        merged: &str,
    ) -> Tried
        ensures told { TellsMore (attempts self.old) (attempts self.new)
            (record { key = key; tried = tried; settings = settings.now; merged = merged.now; outcome = result }) }
        ensures name { label self.new ≡ label self.old }
        ensures retry { HasLength result };
}
