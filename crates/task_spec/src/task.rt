//! A task: what to measure, when, with what, and where its results go.
ghost use Rattle.std.specs.Prelude.{◌≡◌, IfOk};

use archive_retry::policy::Policy;
use plugin_core::test_spec::TestSpec;
use ps_time::duplicate::Duplicate;
use ps_time::items::Items;
use ps_time::memory::Memory;
use ps_time::text::Text;
use schedule_rule::rule::Rule;
use std::alloc::Global;

/// Where a task's results go.
#[derive(Drop)]
pub struct Archive {
    /// `bitbucket` or `failer`.
    pub archiver: Text,
    /// What the archiver is told besides the result, as the compact text of an object.
    pub settings: Text,
    /// How often it is tried again; without entries where the task gives no policy.
    pub policy: Policy,
}

impl Archive {
    /// The same archive once more.
    pub fn copy(&self, alloc: Global) -> Result<Archive, Memory>
        ensures { IfOk result (λ made. made ≡ self.now) }
    {
        Ok(Archive {
            archiver: self.archiver.copy(alloc)?,
            settings: self.settings.copy(alloc)?,
            policy: self.policy.copy(alloc)?,
        })
    }
}

impl Duplicate for Archive {
    fn duplicate(&self, alloc: Global) -> Result<Archive, Memory> {
        self.copy(alloc)
    }
}

/// A task as it is posted, with its schedule resolved.
#[derive(Drop)]
pub struct Task {
    /// What the runs measure.
    pub test: TestSpec,
    /// The names of the wanted tools, the most wanted first; at most 8, and none where any will do.
    pub tools: Items<Text>,
    /// When the runs may start.
    pub rule: Rule,
    /// At most 8.
    pub archives: Items<Archive>,
    /// What the poster wants to be kept with the task: the compact text of a tree of at most 65,536 bytes.
    pub reference: Option<Text>,
    /// From -1000 to 1000.
    pub priority: i16,
}

impl Task {
    /// The same task once more.
    pub fn copy(&self, alloc: Global) -> Result<Task, Memory>
        ensures { IfOk result (λ made. made ≡ self.now) }
    {
        let test = self.test.copy(alloc)?;
        let tools = self.tools.copy(alloc)?;
        let archives = self.archives.copy(alloc)?;
        Ok(Task {
            test,
            tools,
            rule: self.rule,
            archives,
            reference: self.reference.duplicate(alloc)?,
            priority: self.priority,
        })
    }
}

impl Duplicate for Task {
    fn duplicate(&self, alloc: Global) -> Result<Task, Memory> {
        self.copy(alloc)
    }
}
