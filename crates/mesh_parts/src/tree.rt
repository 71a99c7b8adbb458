//! A JSON tree, seen by contracts as its data.
ghost use Rattle.std.specs.Prelude.{◌≡◌, IfOk};
ghost use Rattle.serde_json.specs.View.{view};

use ps_time::duplicate::Duplicate;
use ps_time::memory::Memory;
use serde_json::Value;
use std::alloc::Global;
use std::marker::Model;

/// A JSON tree that contracts see as its data, wherever it stands in a value.
pub struct Tree {
    value: Value,
}

impl Model for Tree {
    ghost use Rattle.serde_json.specs.Data.{Data};
    ghost use Rattle.serde_json.specs.View.{view as tree_view};
    ghost use Rattle.ps_json.specs.Coding.{coded_data};

    ghost Value = { Data };

    ghost coded = { coded_data };

    ghost view = { λ t. tree_view t.value };
}

// Written out, so that a drop elsewhere is one call, and not a case for each kind of a tree.
impl Drop for Tree {
    fn drop(self) {
        let Tree { value: _ } = self;
    }
}

impl Tree {
    /// The tree of a value.
    pub fn new(value: Value) -> Tree
        ensures { result ≡ view value }
    {
        Tree { value }
    }

    /// Takes the value out.
    pub fn into_value(self) -> Value
        ensures { view result ≡ self }
    {
        let Tree { value } = self;
        value
    }

    /// Lends the value.
    pub fn as_value(&self) -> &Value
        ensures { view result.now ≡ self.now }
    {
        &self.value
    }

    /// An equal tree.
    pub fn copy(&self, alloc: Global) -> Result<Tree, Memory>
        ensures { IfOk result (λ made. made ≡ self.now) }
    {
        Ok(Tree {
            value: self.value.clone()?,
        })
    }
}

impl Duplicate for Tree {
    fn duplicate(&self, alloc: Global) -> Result<Tree, Memory> {
        self.copy(alloc)
    }
}
