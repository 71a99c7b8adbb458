//! Why a tree is no policy.
ghost use Rattle.std.specs.Prelude.{◌≡◌};
ghost use Rattle.archive_retry.specs.declared.fault.PolicyFault.TheVariants.{Memory as out_of_memory};
ghost use Rattle.archive_retry.specs.Fault.{wrapped};

use ps_json::fault::JsonFault;
use ps_time::memory::Memory;
use ps_time::moment::TimeFault;
use ps_time::text::Text;

/// Why a tree is no policy.
#[derive(Drop)]
pub enum PolicyFault {
    /// A member is missing, of a wrong kind or unknown. It is never `JsonFault::Memory`.
    Json(JsonFault),
    /// The text of this member is no length.
    BadTime(Text, TimeFault),
    /// Out of memory, which may come in place of any answer.
    Memory,
}

impl From<JsonFault> for PolicyFault {
    ghost from_gives = { λ inner fault. fault ≡ wrapped inner };

    fn from(inner: JsonFault) -> PolicyFault {
        match inner {
            JsonFault::Memory => PolicyFault::Memory,
            other => PolicyFault::Json(other),
        }
    }
}

impl From<Memory> for PolicyFault {
    ghost from_gives = { λ _ fault. fault ≡ out_of_memory };

    fn from(_fault: Memory) -> PolicyFault {
        PolicyFault::Memory
    }
}
