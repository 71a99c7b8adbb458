//! Tests as bytes.
use crate::coded::Coded;
use plugin_core::test_spec::TestSpec;
use plugin_text::written::test_text;
use ps_time::memory::Memory;
use ps_time::text::Text;
use std::alloc::Global;
use value_bytes::fault::CodeFault;
use value_bytes::trees::test_in;

impl Coded for TestSpec {
    ghost use Rattle.value_bytes.specs.Tests.{test, test_is};

    ghost codec = { test };

    fn write(&self, alloc: Global, out: &mut Vec<u8>) -> Result<(), Memory> {
        test_text(alloc, self)?.write(alloc, out)
    }

    fn read(alloc: Global, bytes: &[u8]) -> Result<(TestSpec, &[u8]), CodeFault> {
        let (text, rest) = Text::read(alloc, bytes)?;
        let test = test_in(alloc, &text)?;
        Ok((test, rest))
    }

    ghost laws = { test_is };
}
