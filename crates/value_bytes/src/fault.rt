//! Why no value was read.
ghost use Rattle.std.specs.Prelude.{◌≡◌};
ghost use Rattle.value_bytes.specs.declared.fault.CodeFault.TheVariants.{Memory as out_of_memory};

use ps_time::memory::Memory;
use std::alloc::{AllocError, AllocFailed};

/// Why no value was read.
#[derive(Clone, Copy)]
pub enum CodeFault {
    /// No memory was found.
    Memory,
    /// The bytes don't begin with those of a value.
    NoValue,
}

impl From<Memory> for CodeFault {
    ghost from_gives = { λ _ fault. fault ≡ out_of_memory };

    fn from(_fault: Memory) -> CodeFault {
        CodeFault::Memory
    }
}

impl From<AllocError> for CodeFault {
    ghost from_gives = { λ _ fault. fault ≡ out_of_memory };

    fn from(_fault: AllocError) -> CodeFault {
        CodeFault::Memory
    }
}

impl<T: Drop> From<AllocFailed<T>> for CodeFault {
    ghost from_gives = { λ _ fault. fault ≡ out_of_memory };

    fn from(_fault: AllocFailed<T>) -> CodeFault {
        CodeFault::Memory
    }
}
