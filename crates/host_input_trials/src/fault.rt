//! Why a line gives no input.

use ps_time::memory::Memory;

/// Why a line gives no input.
#[derive(Clone, Copy)]
pub enum LineFault {
    /// It says nothing.
    SaysNothing,
    Memory,
}

impl From<Memory> for LineFault {
    fn from(_fault: Memory) -> LineFault {
        LineFault::Memory
    }
}
