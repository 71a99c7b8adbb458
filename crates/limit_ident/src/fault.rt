//! Why a tree is no limit configuration.
ghost use Rattle.std.specs.Prelude.{◌≡◌, ◌≢◌, Some};
ghost use Rattle.limit_ident.specs.declared.fault.LimitFault.TheVariants.{Memory as out_of_memory};
ghost use Rattle.limit_ident.specs.Fault.{wrapped, limit_fault_text};

use ps_json::fault::JsonFault;
use ps_time::memory::Memory;
use ps_time::text::Text;
use std::alloc::Global;
use std::error::Error;
use std::fmt;

/// Why a tree is no limit configuration.
#[derive(Debug, Drop)]
pub enum LimitFault {
    /// The text is no JSON, or a member is missing, of a wrong kind or unknown. It is never
    /// `JsonFault::Memory`.
    Json(JsonFault),
    /// There is no identifier or limit of this type.
    UnknownType(Text),
    /// Two entries of one list have this name.
    Duplicate(Text),
    /// No entry has this name.
    UnknownName(Text),
    /// This text is no block of addresses.
    BadCidr(Text),
    /// The list of this member has no items.
    Empty(Text),
    /// A number of this member is out of its bounds, or a lower bound is above its upper one.
    BadRange(Text),
    /// Out of memory, which may come in place of any answer.
    Memory,
}

impl LimitFault {
    /// The refusal of an empty list, or out of memory for the name.
    pub fn empty(alloc: Global, name: &str) -> LimitFault
        ensures { result ≢ LimitFault.Memory → result ≡ LimitFault.Empty name.now }
    {
        match Text::new(alloc, name) {
            Ok(name) => LimitFault::Empty(name),
            Err(Memory) => LimitFault::Memory,
        }
    }

    /// The refusal of this member's bounds, or out of memory for the name.
    pub fn bad_range(alloc: Global, name: &str) -> LimitFault
        ensures { result ≢ LimitFault.Memory → result ≡ LimitFault.BadRange name.now }
    {
        match Text::new(alloc, name) {
            Ok(name) => LimitFault::BadRange(name),
            Err(Memory) => LimitFault::Memory,
        }
    }
}

impl fmt::Display for LimitFault {
    ghost output = { λ fault. Some (limit_fault_text fault) };

    fn fmt<W: fmt::Write>(&self, f: &mut fmt::Formatter<W>) -> fmt::Result {
        match self {
            LimitFault::Json(JsonFault::Syntax | JsonFault::TooDeep | JsonFault::NotUtf8) => {
                f.write_str("not json")
            }
            LimitFault::Json(fault) => write!(f, "{fault}"),
            LimitFault::UnknownType(name) => write!(f, "unknown type {name}"),
            LimitFault::Duplicate(name) => write!(f, "duplicate {name}"),
            LimitFault::UnknownName(name) => write!(f, "unknown name {name}"),
            LimitFault::BadCidr(text) => write!(f, "bad cidr {text}"),
            LimitFault::Empty(name) => write!(f, "empty {name}"),
            LimitFault::BadRange(name) => write!(f, "bad range {name}"),
            LimitFault::Memory => f.write_str("out of memory"),
        }
    }
}

impl Error for LimitFault {}

impl From<JsonFault> for LimitFault {
    ghost from_gives = { λ inner fault. fault ≡ wrapped inner };

    fn from(inner: JsonFault) -> LimitFault {
        match inner {
            JsonFault::Memory => LimitFault::Memory,
            other => LimitFault::Json(other),
        }
    }
}

impl From<Memory> for LimitFault {
    ghost from_gives = { λ _ fault. fault ≡ out_of_memory };

    fn from(_fault: Memory) -> LimitFault {
        LimitFault::Memory
    }
}
