//! Texts and scripts of tests, in one line: a bar stands for each end of a line.
ghost use Rattle.std.specs.Prelude.{IfOk};
ghost use Rattle.rehearsal_script.specs.Lawful.{IsLawful};

use ps_time::memory::Memory;
use rehearsal_script::read::read_script;
use rehearsal_script::script::{Script, ScriptFault};
use std::alloc::{AllocError, Global};
use std::test::Fail;

/// The bytes of a text.
pub fn lines(alloc: Global, text: &str) -> Result<Vec<u8>, AllocError> {
    let mut bytes = Vec::new(alloc);
    for byte in text.bytes() {
        bytes.push(if byte == b'|' { b'\n' } else { byte })?;
    }
    Ok(bytes)
}

/// The script that a text is.
pub fn script(alloc: Global, text: &str) -> Result<Script, Fail>
    ensures { IfOk result IsLawful }
{
    let bytes = lines(alloc, text)?;
    match read_script(alloc, bytes.as_slice()) {
        Ok(script) => Ok(script),
        Err(ScriptFault::Memory) => Err(Fail::from(Memory)),
        Err(_refused) => Err(Fail::from("refused")),
    }
}
