//! Texts as bytes.
ghost use Rattle.std.specs.Prelude.{◌++◌, ◌≡◌, OnOk};
ghost use Rattle.value_bytes.specs.Codec.{IsText, text as text_codec};

use crate::coded::Coded;
use ps_time::memory::Memory;
use ps_time::text::Text;
use std::alloc::Global;
use value_bytes::fault::CodeFault;
use value_bytes::texts::text_of;

/// Adds the bytes of a text. One of 4 GiB or more has none, and is out of memory.
pub fn write_str(alloc: Global, text: &str, out: &mut Vec<u8>) -> Result<(), Memory>
    ensures code { OnOk result (out.new.items ≡ out.old.items ++ text_codec.code text.now) }
    ensures fits { OnOk result (IsText text.now) }
{
    let Ok(length) = u32::try_from(text.len()) else {
        return Err(Memory);
    };
    length.write(alloc, out)?;
    out.extend_from_slice(text.as_bytes())?;
    Ok(())
}

impl Coded for Text {
    ghost use Rattle.value_bytes.specs.Codec.{text};
    ghost use Rattle.value_bytes.specs.TextLaws.{text_is};

    ghost codec = { text };

    fn write(&self, alloc: Global, out: &mut Vec<u8>) -> Result<(), Memory> {
        write_str(alloc, self.as_str(), out)
    }

    fn read(alloc: Global, bytes: &[u8]) -> Result<(Text, &[u8]), CodeFault> {
        let (len, rest) = u32::read(alloc, bytes)?;
        text_of(alloc, len as usize, rest)
    }

    ghost laws = { text_is };
}
