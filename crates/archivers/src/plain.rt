//! The archivers that need nothing but themselves, by their names.
ghost use Rattle.std.specs.Prelude.{◌≡◌, ◌≢◌, None, codes};
ghost use Rattle.ps_doors.specs.Archiver.{HasLength};
ghost use Rattle.ps_doors.specs.declared.archiver.Tried.TheVariants.{Failed, Memory as NoMemory};

use crate::bitbucket::Bitbucket;
use crate::by_name::Archivers;
use crate::failer::Failer;
use ps_doors::archiver::{Archiver, Tried};
use ps_time::key::RunKey;
use ps_time::memory::Memory;
use ps_time::text::Text;
use std::alloc::Global;

/// `bitbucket` and `failer`.
#[derive(Drop)]
pub struct PlainArchivers {
    bitbucket: Bitbucket,
    failer: Failer,
}

impl PlainArchivers {
    /// Both archivers.
    pub fn new() -> PlainArchivers {
        PlainArchivers {
            bitbucket: Bitbucket::new(),
            failer: Failer::new(),
        }
    }
}

fn no_archiver(alloc: Global) -> Tried
    ensures outcome { result ≢ NoMemory → result ≡ Failed (codes "no archiver") None }
    ensures retry { HasLength result }
{
    match Text::new(alloc, "no archiver") {
        Ok(error) => Tried::Failed { error, retry: None },
        Err(Memory) => Tried::Memory,
    }
}

impl Archivers for PlainArchivers {
    ghost use Rattle.archivers.specs.Outcome.{plain};

    ghost comes = { λ _. plain };

    /// An attempt of another name fails with the error `no archiver`.
    fn attempt(
        &mut self,
        alloc: Global,
        archiver: &str,
        key: RunKey,
        tried: u32,
        settings: &str,
        merged: &str,
    ) -> Tried {
        match archiver {
            "bitbucket" => self.bitbucket.attempt(alloc, key, tried, settings, merged),
            "failer" => self.failer.attempt(alloc, key, tried, settings, merged),
            _ => no_archiver(alloc),
        }
    }
}
