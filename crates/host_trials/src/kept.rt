//! The host that is kept in a folder, opened.
ghost use Rattle.host_model.specs.Conditions.{IsConfig};

use crate::fault::TableFault;
use host_input_trials::config::config;
use host_keep::open::open;
use host_model::config::Config;
use ps_disks::disk::Disk;
use ps_disks::rack::Rack;
use ps_files::file_disk::FileDisk;
use ps_files::folder_rack::FolderRack;
use std::alloc::Global;
use std::fs::File;
use std::println;

type Files = (FileDisk<File>, FileDisk<File>);

fn pair_in<R: Rack<Disk = FileDisk<File>>>(
    rack: &mut R,
    alloc: Global,
    folder: &str,
) -> Option<Files> {
    rack.open_pair(alloc, folder).ok()
}

// How many rows the host has for which the disks stand, and the generation of the disk that counts.
fn counted<D: Disk + Drop>(alloc: Global, config: Config, pair: (D, D)) -> Option<(usize, u64)>
    requires { IsConfig config }
{
    let (first, second) = pair;
    match open(alloc, config, 0, first, second) {
        Ok(keep) => {
            let told = (keep.machine().book().rows().len(), keep.generation());
            drop(keep);
            Some(told)
        }
        Err(fault) => {
            drop(fault);
            None
        }
    }
}

fn print_counted(rt: &HostRuntime, told: (usize, u64)) -> Result<(), TableFault> {
    let (rows, generation) = told;
    println!(rt; "{rows} rows, generation {generation}")?;
    Ok(())
}

/// Opens the host that is kept in a folder, and prints how many rows it has and the generation of the disk that counts.
pub(crate) fn tell_kept(rt: &HostRuntime, folder: &str) -> Result<(), TableFault> {
    let config = config(rt.alloc())?;
    let Some(pair) = pair_in(&mut FolderRack::new(rt), rt.alloc(), folder) else {
        drop(config);
        return Err(TableFault::NotOpened);
    };
    match counted(rt.alloc(), config, pair) {
        Some(told) => print_counted(rt, told),
        None => Err(TableFault::NotOpened),
    }
}
