//! Why a tree, or a member of one, is refused.
ghost use Rattle.std.specs.Prelude.{◌≡◌, ◌≢◌, Some};
ghost use Rattle.ps_json.specs.declared.fault.JsonFault.TheVariants.{Memory as out_of_memory};
ghost use Rattle.ps_json.specs.Fault.{fault_text};

use ps_time::memory::Memory;
use ps_time::text::Text;
use std::alloc::{AllocError, Global};
use std::error::Error;
use std::fmt;

/// Why a tree, or a member of one, is refused.
#[derive(Debug, PartialEq, Eq, Drop)]
pub enum JsonFault {
    /// The text is no JSON (RFC 8259), holds a number above the floats' range, or nests deeper
    /// than 127 levels.
    Syntax,
    /// The tree nests deeper than 64 levels.
    TooDeep,
    /// The bytes are no UTF-8.
    NotUtf8,
    /// A member that has to be there isn't.
    Missing(Text),
    /// The value of this member, or an item of the list there, is of another kind, or out of its
    /// bounds.
    WrongKind(Text),
    /// A member that nobody takes.
    Unknown(Text),
    /// Out of memory, which may come in place of any answer.
    Memory,
}

impl JsonFault {
    /// The refusal of an object without this member, or out of memory for the name.
    pub fn missing(alloc: Global, name: &str) -> JsonFault
        ensures { result ≢ JsonFault.Memory → result ≡ JsonFault.Missing name.now }
    {
        match Text::new(alloc, name) {
            Ok(name) => JsonFault::Missing(name),
            Err(Memory) => JsonFault::Memory,
        }
    }

    /// The refusal of this member's value, or out of memory for the name.
    pub fn wrong_kind(alloc: Global, name: &str) -> JsonFault
        ensures { result ≢ JsonFault.Memory → result ≡ JsonFault.WrongKind name.now }
    {
        match Text::new(alloc, name) {
            Ok(name) => JsonFault::WrongKind(name),
            Err(Memory) => JsonFault::Memory,
        }
    }

    /// The refusal of an object with this member, or out of memory for the name.
    pub fn unknown(alloc: Global, name: &str) -> JsonFault
        ensures { result ≢ JsonFault.Memory → result ≡ JsonFault.Unknown name.now }
    {
        match Text::new(alloc, name) {
            Ok(name) => JsonFault::Unknown(name),
            Err(Memory) => JsonFault::Memory,
        }
    }
}

impl fmt::Display for JsonFault {
    ghost output = { λ fault. Some (fault_text fault) };

    fn fmt<W: fmt::Write>(&self, f: &mut fmt::Formatter<W>) -> fmt::Result {
        match self {
            JsonFault::Syntax => f.write_str("syntax"),
            JsonFault::TooDeep => f.write_str("too deep"),
            JsonFault::NotUtf8 => f.write_str("not utf-8"),
            JsonFault::Missing(name) => write!(f, "missing {name}"),
            JsonFault::WrongKind(name) => write!(f, "wrong kind {name}"),
            JsonFault::Unknown(name) => write!(f, "unknown member {name}"),
            JsonFault::Memory => f.write_str("out of memory"),
        }
    }
}

impl Error for JsonFault {}

impl From<Memory> for JsonFault {
    ghost from_gives = { λ _ fault. fault ≡ out_of_memory };

    fn from(_fault: Memory) -> JsonFault {
        JsonFault::Memory
    }
}

impl From<AllocError> for JsonFault {
    ghost from_gives = { λ _ fault. fault ≡ out_of_memory };

    fn from(_fault: AllocError) -> JsonFault {
        JsonFault::Memory
    }
}
