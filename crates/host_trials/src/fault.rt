//! Why there is no table.

use host_input_trials::fault::LineFault;
use ps_time::memory::Memory;
use std::alloc::{AllocError, AllocFailed};
use std::io;

/// Why there is no table, or only a part of one.
#[derive(Clone, Copy)]
pub(crate) enum TableFault {
    /// A line of the script says nothing.
    Line,
    /// Disks stand for no host that opens.
    NotOpened,
    /// Standard input or output failed.
    Stream,
    Memory,
}

impl From<Memory> for TableFault {
    fn from(_fault: Memory) -> TableFault {
        TableFault::Memory
    }
}

impl From<LineFault> for TableFault {
    fn from(fault: LineFault) -> TableFault {
        match fault {
            LineFault::SaysNothing => TableFault::Line,
            LineFault::Memory => TableFault::Memory,
        }
    }
}

impl From<AllocError> for TableFault {
    fn from(_fault: AllocError) -> TableFault {
        TableFault::Memory
    }
}

impl<T: Drop> From<AllocFailed<T>> for TableFault {
    fn from(_fault: AllocFailed<T>) -> TableFault {
        TableFault::Memory
    }
}

impl From<io::Error> for TableFault {
    fn from(_fault: io::Error) -> TableFault {
        TableFault::Stream
    }
}
