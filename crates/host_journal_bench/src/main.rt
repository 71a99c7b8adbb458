//! Opens the journal that is kept in a folder, which is the only word, and prints the length of its
//! snapshot and how many records there are. The status is 2 without a word, and 1 where no journal is opened.
#![tactic(auto)]

use host_journal::journal::Journal;
use ps_disks::rack::Rack;
use ps_files::file_disk::FileDisk;
use ps_files::folder_rack::FolderRack;
use ps_time::items::Items;
use std::alloc::Global;
use std::fs::File;
use std::process::ExitCode;
use std::{env, io, println};

type List = Items<Items<u8>>;

fn opened<R: Rack<Disk = FileDisk<File>>>(
    rack: &mut R,
    alloc: Global,
    folder: &str,
) -> Option<List> {
    let Ok((first, second)) = rack.open_pair(alloc, folder) else {
        return None;
    };
    match Journal::open(alloc, first, second) {
        Ok((_journal, list)) => Some(list),
        Err(_fault) => None,
    }
}

fn folder_of(rt: &HostRuntime) -> io::Result<Option<String>> {
    let mut words = env::args(rt)?.skip(1);
    Ok(words.next())
}

fn main(rt: HostRuntime) -> ExitCode {
    let Ok(Some(folder)) = folder_of(&rt) else {
        return ExitCode::from(2);
    };
    let Some(list) = opened(&mut FolderRack::new(&rt), rt.alloc(), folder.as_str()) else {
        return ExitCode::from(1);
    };
    match list.as_slice() {
        [snapshot, records @ ..] => print_list(&rt, snapshot.len(), records.len()),
        [] => ExitCode::from(1),
    }
}

fn print_list(rt: &HostRuntime, bytes: usize, records: usize) -> ExitCode {
    match println!(rt; "a snapshot of {bytes} bytes, and {records} records") {
        Ok(()) => ExitCode::SUCCESS,
        Err(_) => ExitCode::from(1),
    }
}
