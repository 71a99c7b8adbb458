//! psched, a proved scheduler of network measurements: the program over its standard streams.
#![tactic(auto)]

#[cfg(test)]
mod archive_tests;
#[cfg(test)]
mod calls;
#[cfg(test)]
mod disk_tests;
#[cfg(test)]
mod fault_tests;
#[cfg(test)]
mod scripts;

use archivers::plain::PlainArchivers;
use ps_ports::adapters::{ReaderSource, WriterSink};
use psched_top::psched::{OUT_OF_MEMORY, psched};
use std::alloc::Global;
use std::io::ErrorKind;
use std::process::ExitCode;
use std::{env, io};

fn words_of(rt: &HostRuntime, alloc: Global) -> io::Result<Vec<String>> {
    match env::args(rt) {
        Ok(args) => Ok(args.skip(1).collect(alloc)?),
        // A word that isn't UTF-8 is in no grammar, as no word at all is.
        Err(fault) if fault.kind() == ErrorKind::InvalidData => Ok(Vec::new(alloc)),
        Err(fault) => Err(fault),
    }
}

fn main(rt: HostRuntime) -> ExitCode {
    let alloc = rt.alloc();
    let Ok(words) = words_of(&rt, alloc) else {
        return ExitCode::from(OUT_OF_MEMORY);
    };
    let mut source = ReaderSource::new(rt.stdin());
    let mut sink = WriterSink::new(rt.stdout());
    let mut archivers = PlainArchivers::new();
    ExitCode::from(psched(alloc, &words, &mut source, &mut sink, &mut archivers))
}
