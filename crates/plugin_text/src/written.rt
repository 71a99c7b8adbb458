//! The compact JSON text of a test.
ghost use Rattle.std.specs.Prelude.{◌≡◌, ◌≤◌, IfOk, Ok, length, true};
ghost use Rattle.serde_json.specs.Written.{compact_text};
ghost use Rattle.ps_json.specs.Tree.{tree_of};
ghost use Rattle.plugin_core.specs.Bounds.{IsTest};
ghost use Rattle.plugin_core.specs.WriteTest.{most_test_bytes, test_data};
ghost use Rattle.plugin_text.specs.Plain.{is_plain_test};

use crate::plain::is_plain_test;
use crate::straight::straight_text;
use plugin_core::test_spec::TestSpec;
use plugin_core::write_test::{law_test_text, write_test};
use ps_json::tree::write_text;
use ps_time::memory::Memory;
use ps_time::text::Text;
use std::alloc::Global;

fn plain_text(alloc: Global, test: &TestSpec) -> Result<Text, Memory>
    requires test { IsTest test.now }
    requires plain { is_plain_test test.now ≡ true }
    ensures text { IfOk result (λ text. text ≡ compact_text (test_data test.now)) }
    ensures tree { IfOk result (λ text. tree_of text ≡ Ok (test_data test.now)) }
{
    let text = straight_text(alloc, test)?;
    Ok(text)
}

/// The compact text of the tree of a test, by the tree itself only where a text needs escapes.
pub fn test_text(alloc: Global, test: &TestSpec) -> Result<Text, Memory>
    requires { IsTest test.now }
    ensures text { IfOk result (λ text. text ≡ compact_text (test_data test.now)) }
    ensures tree { IfOk result (λ text. tree_of text ≡ Ok (test_data test.now)) }
    ensures short { IfOk result (λ text. length text ≤ most_test_bytes) }
{
    law_test_text();
    if is_plain_test(test) {
        return plain_text(alloc, test);
    }
    let value = write_test(alloc, test)?;
    write_text(alloc, &value)
}
