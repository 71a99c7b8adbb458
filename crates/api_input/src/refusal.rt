//! Why a request is no input.
ghost use Rattle.std.specs.Prelude.{◌≡◌};
ghost use Rattle.api_input.specs.Refused.{refused};
ghost use Rattle.api_input.specs.declared.refusal.Refusal.TheVariants.{Memory as out_of_memory};

use crate::route::Methods;
use ps_time::memory::Memory;
use task_spec::fault::TaskFault;

/// Why a request is no input, by the first test that it fails.
#[derive(Drop)]
pub enum Refusal {
    /// The path names nothing.
    NotFound,
    /// The path has these methods, and another was used.
    Method(Methods),
    /// The path is for peers, and the request shows no key of one.
    NoPeerKey,
    /// The query isn't one that the path has.
    Query,
    /// The body isn't one that the path has. It is never `TaskFault::Memory`.
    Body(TaskFault),
    /// Out of memory, which may come in place of any answer.
    Memory,
}

impl From<TaskFault> for Refusal {
    ghost from_gives = { λ inner refusal. refusal ≡ refused inner };

    fn from(inner: TaskFault) -> Refusal {
        match inner {
            TaskFault::Memory => Refusal::Memory,
            other => Refusal::Body(other),
        }
    }
}

impl From<Memory> for Refusal {
    ghost from_gives = { λ _ refusal. refusal ≡ out_of_memory };

    fn from(_fault: Memory) -> Refusal {
        Refusal::Memory
    }
}
