//! A report as it is written.
ghost use Rattle.std.specs.Prelude.{◌≡◌, ◌++◌, [], OnOk};
ghost use Rattle.std.specs.Fmt.{AppendsText};

use ps_time::items::Items;
use ps_time::memory::Memory;
use std::alloc::Global;
use std::fmt;
use std::marker::Model;

/// The bytes of a report, as far as it is written. What this crate says is UTF-8; the bodies of responses are taken as
/// they are.
#[derive(Drop)]
pub struct ReportText {
    bytes: Vec<u8>,
}

impl Model for ReportText {
    ghost use Rattle.std.specs.Prelude.{ℕ, List};

    ghost Value = { List ℕ };

    ghost view = { λ t. t.bytes.items };
}

impl ReportText {
    /// A report that says nothing yet. It takes no memory; `alloc` is for its bytes.
    pub fn new(alloc: Global) -> ReportText
        ensures { result ≡ [] }
    {
        ReportText {
            bytes: Vec::new(alloc),
        }
    }

    /// Takes the bytes out; nothing is copied.
    pub fn into_bytes(self) -> Items<u8>
        ensures { result ≡ self }
    {
        Items::from_vec(self.bytes)
    }

    pub(crate) fn add_bytes(&mut self, bytes: &[u8]) -> Result<(), Memory>
        ensures { OnOk result (self.new ≡ self.old ++ bytes.now) }
    {
        self.bytes.extend_from_slice(bytes)?;
        Ok(())
    }

    // What `write!` and `writeln!` call.
    pub(crate) fn write_fmt<D: fmt::Display + Drop>(&mut self, text: D) -> Result<(), Memory>
        ensures { OnOk result (AppendsText self.old self.new (D.output text)) }
    {
        match fmt::Write::write_fmt(self, text) {
            Ok(()) => Ok(()),
            Err(_) => Err(Memory),
        }
    }
}

impl fmt::Write for ReportText {
    ghost write_str_gives = { λ s bs t. t ≡ s ++ bs };

    fn write_str(&mut self, text: &str) -> fmt::Result {
        match self.bytes.extend_from_slice(text.as_bytes()) {
            Ok(()) => Ok(()),
            Err(_) => Err(fmt::Error),
        }
    }
}
