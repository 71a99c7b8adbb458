//! Disks and racks over files and folders: logic over the calls of the system, which tell themselves
//! where they are made in memory.
#![tactic(auto)]

pub mod file_calls;
pub mod file_disk;
pub mod folder_calls;
pub mod folder_rack;
pub mod memory_file;
pub mod memory_folders;
