//! Why a tree is no task.
ghost use Rattle.std.specs.Prelude.{◌≡◌, ◌≢◌};
ghost use Rattle.task_spec.specs.declared.fault.TaskFault.TheVariants.{Memory as out_of_memory};
ghost use Rattle.task_spec.specs.Fault.{wrapped, wrapped_spec, wrapped_policy};

use archive_retry::fault::PolicyFault;
use plugin_core::fault::SpecFault;
use ps_json::fault::JsonFault;
use ps_time::memory::Memory;
use ps_time::moment::TimeFault;
use ps_time::text::Text;
use std::alloc::Global;

/// Why a tree is no task.
#[derive(Drop)]
pub enum TaskFault {
    /// A member is missing, of a wrong kind or unknown. It is never `JsonFault::Memory`.
    Json(JsonFault),
    /// The text of this member is no length, moment or start.
    BadTime(Text, TimeFault),
    /// There is no test of this name.
    UnknownTest(Text),
    /// The priority is no whole number from -1000 to 1000.
    BadPriority,
    /// There is no tool of this name.
    UnknownTool(Text),
    /// There is no archiver of this name.
    UnknownArchiver(Text),
    /// What this member holds is out of its bounds.
    BadSpec(Text),
    /// Out of memory, which may come in place of any answer.
    Memory,
}

impl TaskFault {
    /// The refusal of this member's bounds, or out of memory for the name.
    pub fn bad_spec(alloc: Global, name: &str) -> TaskFault
        ensures { result ≢ TaskFault.Memory → result ≡ TaskFault.BadSpec name.now }
    {
        match Text::new(alloc, name) {
            Ok(name) => TaskFault::BadSpec(name),
            Err(Memory) => TaskFault::Memory,
        }
    }
}

impl From<JsonFault> for TaskFault {
    ghost from_gives = { λ inner fault. fault ≡ wrapped inner };

    fn from(inner: JsonFault) -> TaskFault {
        match inner {
            JsonFault::Memory => TaskFault::Memory,
            other => TaskFault::Json(other),
        }
    }
}

impl From<SpecFault> for TaskFault {
    ghost from_gives = { λ inner fault. fault ≡ wrapped_spec inner };

    fn from(inner: SpecFault) -> TaskFault {
        match inner {
            SpecFault::Json(fault) => TaskFault::Json(fault),
            SpecFault::BadTime(member, fault) => TaskFault::BadTime(member, fault),
            SpecFault::UnknownTest(name) => TaskFault::UnknownTest(name),
            SpecFault::BadSpec(member) => TaskFault::BadSpec(member),
            SpecFault::Memory => TaskFault::Memory,
        }
    }
}

impl From<PolicyFault> for TaskFault {
    ghost from_gives = { λ inner fault. fault ≡ wrapped_policy inner };

    fn from(inner: PolicyFault) -> TaskFault {
        match inner {
            PolicyFault::Json(fault) => TaskFault::Json(fault),
            PolicyFault::BadTime(member, fault) => TaskFault::BadTime(member, fault),
            PolicyFault::Memory => TaskFault::Memory,
        }
    }
}

impl From<Memory> for TaskFault {
    ghost from_gives = { λ _ fault. fault ≡ out_of_memory };

    fn from(_fault: Memory) -> TaskFault {
        TaskFault::Memory
    }
}
