//! The archiver that fails.
ghost use Rattle.std.specs.Prelude.{◌≡◌, ◌≢◌, IfOk, None, codes};
ghost use Rattle.ps_doors.specs.Archiver.{HasLength};
ghost use Rattle.ps_doors.specs.Told.{TellsMore};
ghost use Rattle.ps_doors.specs.declared.archiver.Attempt.{Attempt as Made};
ghost use Rattle.archivers.specs.Outcome.{failer_outcome};

use ps_doors::archiver::{Archiver, Tried};
use ps_time::key::RunKey;
use ps_time::memory::Memory;
use ps_time::text::Text;
use std::alloc::Global;
use task_spec::archive::fails_by;

/// The archiver `failer`: it fails as often as the settings of an archive say, and keeps no result. It tells no attempts.
#[derive(Drop)]
pub struct Failer;

impl Failer {
    /// The archiver, which has no state: how often it failed is told to each attempt.
    pub fn new() -> Failer {
        Failer
    }
}

fn try_once(alloc: Global, tried: u32, settings: &str) -> Result<Tried, Memory>
    ensures outcome { IfOk result (λ outcome. outcome ≡ failer_outcome settings.now tried) }
    ensures retry { IfOk result HasLength }
{
    if u64::from(tried) >= fails_by(alloc, settings)? {
        return Ok(Tried::Succeeded);
    }
    Ok(Tried::Failed {
        error: Text::new(alloc, "failed")?,
        retry: Some(0),
    })
}

impl Archiver for Failer {
    ghost use Rattle.std.specs.Prelude.{None, codes};

    ghost label = { λ _. codes "failer" };

    ghost attempts = { λ _. None };

    fn name(&self) -> &str {
        "failer"
    }

    /// Fails with the error `failed` and no wait of its own where fewer attempts were made before than the settings say,
    /// and else succeeds.
    fn attempt(
        &mut self,
        alloc: Global,
        key: RunKey,
        tried: u32,
        settings: &str,
        merged: &str,
    ) -> Tried
        ensures told { TellsMore {X = Made} None None (record { key = key; tried = tried; settings = settings.now; merged = merged.now; outcome = result }) }
        ensures name { codes "failer" ≡ codes "failer" }
        ensures retry { HasLength result }
        ensures outcome { result ≢ Tried.Memory → result ≡ failer_outcome settings.now tried }
    {
        match try_once(alloc, tried, settings) {
            Ok(outcome) => outcome,
            Err(Memory) => Tried::Memory,
        }
    }
}
