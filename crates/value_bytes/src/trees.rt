//! Trees and tests of texts.
ghost use Rattle.std.specs.Prelude.{IfOk, Ok};
ghost use Rattle.serde_json.specs.View.{view};
ghost use Rattle.ps_json.specs.Tree.{tree_of};
ghost use Rattle.plugin_core.specs.Bounds.{IsTest};
ghost use Rattle.plugin_core.specs.ReadTest.{test_of};
ghost use Rattle.value_bytes.specs.Codec.{IsText};
ghost use Rattle.value_bytes.specs.Gives.{Gives};
ghost use Rattle.value_bytes.specs.Tests.{FitsTest, ok_of, own_test, test_in};

use crate::fault::CodeFault;
use plugin_core::fault::SpecFault;
use plugin_core::read_test::read_test;
use plugin_core::test_spec::TestSpec;
use plugin_text::written::test_text;
use ps_json::fault::JsonFault;
use ps_json::tree::read_tree;
use ps_time::text::Text;
use serde_json::Value;
use std::alloc::Global;

/// The tree of a text.
pub fn tree_in(alloc: Global, text: &Text) -> Result<Value, CodeFault>
    ensures { Gives view result (ok_of (tree_of text.now)) }
{
    match read_tree(alloc, text.as_str().as_bytes()) {
        Ok(value) => Ok(value),
        Err(JsonFault::Memory) => Err(CodeFault::Memory),
        Err(fault) => {
            drop(fault);
            Err(CodeFault::NoValue)
        }
    }
}

fn test_of(alloc: Global, value: Value) -> Result<TestSpec, CodeFault>
    ensures value { Gives (λ test. test) result (ok_of (test_of (view value))) }
    ensures bounds { IfOk result IsTest }
{
    match read_test(alloc, value) {
        Ok(test) => Ok(test),
        Err(SpecFault::Memory) => Err(CodeFault::Memory),
        Err(fault) => {
            drop(fault);
            Err(CodeFault::NoValue)
        }
    }
}

/// The test, where the text is its own.
fn own_test(alloc: Global, text: &Text, test: TestSpec) -> Result<TestSpec, CodeFault>
    requires test { IsTest test }
    requires text { IsText text.now }
    ensures value { Gives (λ test. test) result (own_test text.now test) }
    ensures fits { IfOk result FitsTest }
{
    let own = test_text(alloc, &test)?;
    if own.as_str() == text.as_str() {
        Ok(test)
    } else {
        Err(CodeFault::NoValue)
    }
}

/// The test whose text this is.
pub fn test_in(alloc: Global, text: &Text) -> Result<TestSpec, CodeFault>
    requires { IsText text.now }
    ensures value { Gives (λ test. test) result (test_in text.now) }
    ensures fits { IfOk result FitsTest }
{
    let value = tree_in(alloc, text)?;
    let test = test_of(alloc, value)?;
    own_test(alloc, text, test)
}
