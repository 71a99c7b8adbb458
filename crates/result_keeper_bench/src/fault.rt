//! Why not all lines were run.

use result_table::keeper::KeeperFault;
use std::alloc::{AllocError, AllocFailed};
use std::io;

/// Why not all lines were run.
#[derive(Clone, Copy)]
pub(crate) enum LineFault {
    /// A line says nothing.
    Line,
    /// A store, a file, standard input or output failed, or memory ran out.
    Failed,
}

impl From<KeeperFault> for LineFault {
    fn from(_fault: KeeperFault) -> LineFault {
        LineFault::Failed
    }
}

impl From<AllocError> for LineFault {
    fn from(_fault: AllocError) -> LineFault {
        LineFault::Failed
    }
}

impl<T: Drop> From<AllocFailed<T>> for LineFault {
    fn from(_fault: AllocFailed<T>) -> LineFault {
        LineFault::Failed
    }
}

impl From<io::Error> for LineFault {
    fn from(_fault: io::Error) -> LineFault {
        LineFault::Failed
    }
}
