//! What a lead asks of a participant.
ghost use Rattle.std.specs.Prelude.{◌≡◌, IfOk};

use plugin_core::test_spec::TestSpec;
use ps_time::asker::Asker;
use ps_time::duplicate::Duplicate;
use ps_time::interval::Window;
use ps_time::key::RunKey;
use ps_time::memory::Memory;
use ps_time::moment::Moment;
use ps_time::same::Same;
use ps_time::text::Text;
use std::alloc::Global;

/// A run at a start. Its class, length and participants follow from the test and the lead's name.
#[derive(Drop)]
pub struct Proposal {
    /// Of which run.
    pub key: RunKey,
    /// What it measures.
    pub test: TestSpec,
    /// The name of the tool.
    pub tool: Text,
    /// In seconds since 1970 UTC.
    pub start: Moment,
    /// A run of a greater one may preempt it.
    pub priority: i16,
    /// Who asks, and which host.
    pub asker: Asker,
}

impl Proposal {
    /// The same proposal once more.
    pub fn copy(&self, alloc: Global) -> Result<Proposal, Memory>
        ensures { IfOk result (λ made. made ≡ self.now) }
    {
        let tool = self.tool.copy(alloc)?;
        let asker = self.asker.copy(alloc)?;
        Ok(Proposal {
            key: self.key,
            test: self.test.copy(alloc)?,
            tool,
            start: self.start,
            priority: self.priority,
            asker,
        })
    }
}

impl Duplicate for Proposal {
    fn duplicate(&self, alloc: Global) -> Result<Proposal, Memory> {
        self.copy(alloc)
    }
}

impl Same for Proposal {
    fn same(&self, other: &Proposal) -> bool {
        self.key == other.key
            && self.test.same(&other.test)
            && self.tool.same(&other.tool)
            && self.start == other.start
            && self.priority == other.priority
            && self.asker.same(&other.asker)
    }
}

/// Which starts in a window are free for a run.
#[derive(Drop)]
pub struct Question {
    /// Of which run.
    pub key: RunKey,
    /// What it measures.
    pub test: TestSpec,
    /// A run of a greater one may preempt it.
    pub priority: i16,
    /// The starts that are asked about.
    pub window: Window,
}

impl Question {
    /// The same question once more.
    pub fn copy(&self, alloc: Global) -> Result<Question, Memory>
        ensures { IfOk result (λ made. made ≡ self.now) }
    {
        Ok(Question {
            key: self.key,
            test: self.test.copy(alloc)?,
            priority: self.priority,
            window: self.window,
        })
    }
}

impl Duplicate for Question {
    fn duplicate(&self, alloc: Global) -> Result<Question, Memory> {
        self.copy(alloc)
    }
}

impl Same for Question {
    fn same(&self, other: &Question) -> bool {
        self.key == other.key
            && self.test.same(&other.test)
            && self.priority == other.priority
            && self.window == other.window
    }
}
