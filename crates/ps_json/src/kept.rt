//! Texts that are kept as trees.
ghost use Rattle.std.specs.Prelude.{◌≡◌, ◌↔◌, IsTrue, IfOk, Some};
ghost use Rattle.serde_json.specs.View.{view};
ghost use Rattle.ps_json.specs.TreeText.{IsTreeText, kept_tree};

use crate::fault::JsonFault;
use crate::shape::{is_deeper, is_whole};
use crate::tree::read_tree;
use ps_time::memory::Memory;
use ps_time::text::Text;
use serde_json::Value;
use std::alloc::Global;

/// Whether a text may be kept as a tree: `read_tree` reads it, it nests at most `most` levels, and its
/// numbers are whole. The text stays as it is, also where it isn't compact.
pub fn is_tree_text(alloc: Global, text: &str, most: usize) -> Result<bool, Memory>
    ensures { IfOk result (λ is. IsTrue is ↔ IsTreeText most text.now) }
{
    match read_tree(alloc, text.as_bytes()) {
        Ok(value) => Ok(is_whole(&value) && !is_deeper(&value, most)),
        Err(JsonFault::Memory) => Err(Memory),
        Err(_) => Ok(false),
    }
}

/// The tree of a text that was kept. The text is one, so only memory may run out.
pub fn read_kept(alloc: Global, text: &Text) -> Result<Value, Memory>
    requires { IsTreeText 64 text.now }
    ensures { IfOk result (λ value. view value ≡ kept_tree (Some text.now)) }
{
    match read_tree(alloc, text.as_str().as_bytes()) {
        Ok(value) => Ok(value),
        Err(_) => Err(Memory),
    }
}
