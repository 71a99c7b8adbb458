//! Why a tree is no test.
ghost use Rattle.std.specs.Prelude.{◌≡◌, ◌≢◌};
ghost use Rattle.plugin_core.specs.declared.fault.SpecFault.TheVariants.{Memory as out_of_memory};
ghost use Rattle.plugin_core.specs.Fault.{wrapped};

use ps_json::fault::JsonFault;
use ps_time::memory::Memory;
use ps_time::moment::TimeFault;
use ps_time::text::Text;
use std::alloc::Global;

/// Why a tree is no test.
#[derive(Drop)]
pub enum SpecFault {
    /// A member is missing, of a wrong kind or unknown. It is never `JsonFault::Memory`.
    Json(JsonFault),
    /// The text of this member is no length.
    BadTime(Text, TimeFault),
    /// There is no test of this name.
    UnknownTest(Text),
    /// A length or list of this member is out of its bounds.
    BadSpec(Text),
    /// Out of memory, which may come in place of any answer.
    Memory,
}

impl SpecFault {
    /// The refusal of this member's bounds, or out of memory for the name.
    pub fn bad_spec(alloc: Global, name: &str) -> SpecFault
        ensures { result ≢ SpecFault.Memory → result ≡ SpecFault.BadSpec name.now }
    {
        match Text::new(alloc, name) {
            Ok(name) => SpecFault::BadSpec(name),
            Err(Memory) => SpecFault::Memory,
        }
    }
}

impl From<JsonFault> for SpecFault {
    ghost from_gives = { λ inner fault. fault ≡ wrapped inner };

    fn from(inner: JsonFault) -> SpecFault {
        match inner {
            JsonFault::Memory => SpecFault::Memory,
            other => SpecFault::Json(other),
        }
    }
}

impl From<Memory> for SpecFault {
    ghost from_gives = { λ _ fault. fault ≡ out_of_memory };

    fn from(_fault: Memory) -> SpecFault {
        SpecFault::Memory
    }
}
