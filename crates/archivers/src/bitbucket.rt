//! The archiver that keeps nothing.
ghost use Rattle.std.specs.Prelude.{◌≡◌, None, codes};
ghost use Rattle.ps_doors.specs.Archiver.{HasLength};
ghost use Rattle.ps_doors.specs.Told.{TellsMore};
ghost use Rattle.ps_doors.specs.declared.archiver.Attempt.{Attempt as Made};

use ps_doors::archiver::{Archiver, Tried};
use ps_time::key::RunKey;
use std::alloc::Global;

/// The archiver `bitbucket`: it takes every result and keeps none. It tells no attempts.
#[derive(Drop)]
pub struct Bitbucket;

impl Bitbucket {
    /// The archiver, which has no state.
    pub fn new() -> Bitbucket {
        Bitbucket
    }
}

impl Archiver for Bitbucket {
    ghost use Rattle.std.specs.Prelude.{None, codes};

    ghost label = { λ _. codes "bitbucket" };

    ghost attempts = { λ _. None };

    fn name(&self) -> &str {
        "bitbucket"
    }

    /// Succeeds.
    fn attempt(
        &mut self,
        _alloc: Global,
        key: RunKey,
        tried: u32,
        settings: &str,
        merged: &str,
    ) -> Tried
        ensures told { TellsMore {X = Made} None None (record { key = key; tried = tried; settings = settings.now; merged = merged.now; outcome = result }) }
        ensures name { codes "bitbucket" ≡ codes "bitbucket" }
        ensures retry { HasLength result }
        ensures outcome { result ≡ Tried.Succeeded }
    {
        Tried::Succeeded
    }
}
