//! Records of results.
ghost use Rattle.std.specs.Prelude.{◌≡◌, IfOk};
ghost use Rattle.result_table.specs.Record.{says_good};

use ps_json::fault::JsonFault;
use ps_json::tree::read_tree;
use ps_time::duplicate::Duplicate;
use ps_time::key::RunKey;
use ps_time::memory::Memory;
use ps_time::moment::Moment;
use ps_time::text::Text;
use serde_json::Value;
use std::alloc::Global;

/// The result of a run, as it is kept.
#[derive(Drop)]
pub struct Record {
    pub key: RunKey,
    /// When the first result came.
    pub since: Moment,
    /// When the last result came.
    pub latest: Moment,
    /// Whether the body is a JSON object whose member `succeeded` is true.
    pub good: bool,
    /// The last result, as it came.
    pub body: Text,
}

impl Record {
    /// An equal record.
    pub fn copy(&self, alloc: Global) -> Result<Record, Memory>
        ensures { IfOk result (λ made. made ≡ self.now) }
    {
        Ok(Record {
            key: self.key,
            since: self.since,
            latest: self.latest,
            good: self.good,
            body: self.body.copy(alloc)?,
        })
    }
}

impl Duplicate for Record {
    fn duplicate(&self, alloc: Global) -> Result<Record, Memory> {
        self.copy(alloc)
    }
}

/// Whether a body reads as a JSON object whose member `succeeded` is true.
#[tactic(auto, unfolding(crate::specs::Record::says_good))]
pub fn is_good(alloc: Global, body: &str) -> Result<bool, Memory>
    ensures { IfOk result (λ good. good ≡ says_good body.now) }
{
    match read_tree(alloc, body.as_bytes()) {
        Ok(value) => Ok(matches!(value.get("succeeded"), Some(Value::Bool(true)))),
        Err(JsonFault::Memory) => Err(Memory),
        Err(_) => Ok(false),
    }
}
