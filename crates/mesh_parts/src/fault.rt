//! Why a text is no mesh.
ghost use Rattle.std.specs.Prelude.{◌≡◌, ◌≢◌, Some};
ghost use Rattle.mesh_parts.specs.declared.fault.MeshFault.TheVariants.{Memory as out_of_memory};
ghost use Rattle.mesh_parts.specs.Fault.{wrapped, mesh_fault_text};

use ps_json::fault::JsonFault;
use ps_time::memory::Memory;
use ps_time::text::Text;
use std::alloc::Global;
use std::error::Error;
use std::fmt;

/// Why a text is no mesh.
#[derive(Debug)]
pub enum MeshFault {
    /// The text is no JSON, or a member is missing, of a wrong kind or unknown. It is never
    /// `JsonFault::Memory`.
    Json(JsonFault),
    /// The list or object of this member has no entries.
    Empty(Text),
    /// The object of this member has more than 64 entries, or there are more than 4,096 wanted tasks.
    TooMany(Text),
    /// This text is no name of a host.
    BadName(Text),
    /// The address of this host is no URL of a host's API.
    BadUrl(Text),
    /// No address, group, test or schedule has this name.
    UnknownName(Text),
    /// This test asks for the second host of a pair, and a list has single hosts.
    BadTemplate(Text),
    /// With some hosts of its group this is no task.
    BadTask(Text),
    /// Out of memory, which may come in place of any answer.
    Memory,
}

// Written out, so that a drop elsewhere is one call, and not a case for each kind.
impl Drop for MeshFault {
    fn drop(self) {
        match self {
            MeshFault::Json(_) => {}
            MeshFault::Empty(_) => {}
            MeshFault::TooMany(_) => {}
            MeshFault::BadName(_) => {}
            MeshFault::BadUrl(_) => {}
            MeshFault::UnknownName(_) => {}
            MeshFault::BadTemplate(_) => {}
            MeshFault::BadTask(_) => {}
            MeshFault::Memory => {}
        }
    }
}

impl MeshFault {
    /// The refusal of a member without entries, or out of memory for the name.
    pub fn empty(alloc: Global, name: &str) -> MeshFault
        ensures { result ≢ MeshFault.Memory → result ≡ MeshFault.Empty name.now }
    {
        match Text::new(alloc, name) {
            Ok(name) => MeshFault::Empty(name),
            Err(Memory) => MeshFault::Memory,
        }
    }

    /// The refusal of a member with too many entries, or out of memory for the name.
    pub fn too_many(alloc: Global, name: &str) -> MeshFault
        ensures { result ≢ MeshFault.Memory → result ≡ MeshFault.TooMany name.now }
    {
        match Text::new(alloc, name) {
            Ok(name) => MeshFault::TooMany(name),
            Err(Memory) => MeshFault::Memory,
        }
    }

    /// The refusal of a host's address, or out of memory for the name.
    pub fn bad_url(alloc: Global, name: &str) -> MeshFault
        ensures { result ≢ MeshFault.Memory → result ≡ MeshFault.BadUrl name.now }
    {
        match Text::new(alloc, name) {
            Ok(name) => MeshFault::BadUrl(name),
            Err(Memory) => MeshFault::Memory,
        }
    }

    /// The refusal of a name of a host, or out of memory for it.
    pub fn bad_name(alloc: Global, name: &str) -> MeshFault
        ensures { result ≢ MeshFault.Memory → result ≡ MeshFault.BadName name.now }
    {
        match Text::new(alloc, name) {
            Ok(name) => MeshFault::BadName(name),
            Err(Memory) => MeshFault::Memory,
        }
    }

    /// The refusal of a task, or out of memory for its name.
    pub fn bad_task(alloc: Global, name: &str) -> MeshFault
        ensures { result ≢ MeshFault.Memory → result ≡ MeshFault.BadTask name.now }
    {
        match Text::new(alloc, name) {
            Ok(name) => MeshFault::BadTask(name),
            Err(Memory) => MeshFault::Memory,
        }
    }
}

impl fmt::Display for MeshFault {
    ghost output = { λ fault. Some (mesh_fault_text fault) };

    fn fmt<W: fmt::Write>(&self, f: &mut fmt::Formatter<W>) -> fmt::Result {
        match self {
            MeshFault::Json(JsonFault::Syntax | JsonFault::TooDeep | JsonFault::NotUtf8) => {
                f.write_str("not json")
            }
            MeshFault::Json(fault) => write!(f, "{fault}"),
            MeshFault::Empty(name) => write!(f, "empty {name}"),
            MeshFault::TooMany(name) => write!(f, "too many {name}"),
            MeshFault::BadName(name) => write!(f, "bad name {name}"),
            MeshFault::BadUrl(name) => write!(f, "bad url {name}"),
            MeshFault::UnknownName(name) => write!(f, "unknown name {name}"),
            MeshFault::BadTemplate(name) => write!(f, "bad template {name}"),
            MeshFault::BadTask(name) => write!(f, "bad task {name}"),
            MeshFault::Memory => f.write_str("out of memory"),
        }
    }
}

impl Error for MeshFault {}

impl From<JsonFault> for MeshFault {
    ghost from_gives = { λ inner fault. fault ≡ wrapped inner };

    fn from(inner: JsonFault) -> MeshFault {
        match inner {
            JsonFault::Memory => MeshFault::Memory,
            other => MeshFault::Json(other),
        }
    }
}

impl From<Memory> for MeshFault {
    ghost from_gives = { λ _ fault. fault ≡ out_of_memory };

    fn from(_fault: Memory) -> MeshFault {
        MeshFault::Memory
    }
}
