//! What a host keeps of a run.
ghost use Rattle.std.specs.Prelude.{◌≡◌, ◌↔◌, IsTrue, IfOk};
ghost use Rattle.run_states.specs.TaskRows.{is_before_task, is_of_task};

use crate::answer::Other;
use crate::why::Closing;
use archive_retry::state::ArchiveState;
use plugin_core::test_spec::TestSpec;
use ps_time::asker::Asker;
use ps_time::duplicate::Duplicate;
use ps_time::interval::{Interval, Window};
use ps_time::items::Items;
use ps_time::key::RunKey;
use ps_time::memory::Memory;
use ps_time::moment::Moment;
use ps_time::same::Same;
use ps_time::text::Text;
use std::alloc::Global;

/// How a run ended on this host.
#[derive(Drop)]
pub struct Ending {
    /// In seconds since 1970 UTC.
    pub moment: Moment,
    /// Whether it succeeded.
    pub good: bool,
    /// The result, a JSON text.
    pub body: Text,
}

impl Ending {
    /// The same ending once more.
    pub fn copy(&self, alloc: Global) -> Result<Ending, Memory>
        ensures { IfOk result (λ made. made ≡ self.now) }
    {
        Ok(Ending {
            moment: self.moment,
            good: self.good,
            body: self.body.copy(alloc)?,
        })
    }
}

impl Duplicate for Ending {
    fn duplicate(&self, alloc: Global) -> Result<Ending, Memory> {
        self.copy(alloc)
    }
}

impl Same for Ending {
    fn same(&self, other: &Ending) -> bool {
        self.moment == other.moment && self.good == other.good && self.body.same(&other.body)
    }
}

/// A run, as one host keeps it. Moments are seconds since 1970 UTC.
#[derive(Drop)]
pub struct RunRow {
    /// Which run it is.
    pub key: RunKey,
    /// What it measures.
    pub test: TestSpec,
    /// The name of the tool, once the run was accepted here.
    pub tool: Option<Text>,
    /// What it reserves, once it was accepted here. A run that ends early keeps it.
    pub interval: Option<Interval>,
    /// A run of a greater one may preempt it.
    pub priority: i16,
    /// The names of the hosts that take part, the lead's first.
    pub participants: Items<Text>,
    /// Who asked for it, and which host.
    pub asker: Asker,
    /// When this host accepted it.
    pub accepted: Option<Moment>,
    /// When this host learned that all participants had accepted it.
    pub confirmed: Option<Moment>,
    /// When its tool was started here.
    pub started: Option<Moment>,
    /// How its tool ended here.
    pub ended: Option<Ending>,
    /// When the test's material came.
    pub material: Option<Moment>,
    /// When and why it was given up.
    pub closed: Option<Closing>,
    /// On the lead of a task's run, the starts that it asked about.
    pub question: Option<Window>,
    /// On the lead of a task's run, when it asked.
    pub asked: Option<Moment>,
    /// On the lead of a task's run, what it knows of the other participants, in their order; elsewhere
    /// empty.
    pub others: Items<Other>,
    /// On the lead, the result of all participants, a JSON text.
    pub merged: Option<Text>,
    /// How far each archiver of the task has come; empty until the results are merged.
    pub archives: Items<ArchiveState>,
}

impl RunRow {
    /// Whether the run is of this lead's task with this serial; the bookings of a host have serial 0.
    pub fn is_of_task(&self, lead: u16, serial: u32) -> bool
        ensures { result ≡ is_of_task lead serial self.now }
    {
        self.key.lead == lead && self.key.task == serial
    }

    // Whether the run is of an earlier lead or task.
    pub(crate) fn is_before_task(&self, lead: u16, serial: u32) -> bool
        ensures { result ≡ is_before_task lead serial self.now }
    {
        self.key.lead < lead || (self.key.lead == lead && self.key.task < serial)
    }

    /// An equal row, with lists and texts of its own.
    pub fn copy(&self, alloc: Global) -> Result<RunRow, Memory>
        ensures { IfOk result (λ made. made ≡ self.now) }
    {
        let (test, tool, participants, asker) = self.copy_work(alloc)?;
        let (ended, closed) = self.copy_ends(alloc)?;
        let (others, merged, archives) = self.copy_lead(alloc)?;
        Ok(RunRow {
            key: self.key,
            test,
            tool,
            interval: self.interval,
            priority: self.priority,
            participants,
            asker,
            accepted: self.accepted,
            confirmed: self.confirmed,
            started: self.started,
            ended,
            material: self.material,
            closed,
            question: self.question,
            asked: self.asked,
            others,
            merged,
            archives,
        })
    }

    fn copy_work(
        &self,
        alloc: Global,
    ) -> Result<(TestSpec, Option<Text>, Items<Text>, Asker), Memory>
        ensures { IfOk result (λ p. p ≡ (self.now.test, self.now.tool, self.now.participants, self.now.asker)) }
    {
        let test = self.test.copy(alloc)?;
        let participants = self.participants.copy(alloc)?;
        let asker = self.asker.copy(alloc)?;
        Ok((test, self.tool.duplicate(alloc)?, participants, asker))
    }

    fn copy_ends(&self, alloc: Global) -> Result<(Option<Ending>, Option<Closing>), Memory>
        ensures { IfOk result (λ p. p ≡ (self.now.ended, self.now.closed)) }
    {
        let ended = self.ended.duplicate(alloc)?;
        Ok((ended, self.closed.duplicate(alloc)?))
    }

    fn copy_lead(
        &self,
        alloc: Global,
    ) -> Result<(Items<Other>, Option<Text>, Items<ArchiveState>), Memory>
        ensures { IfOk result (λ p. p ≡ (self.now.others, self.now.merged, self.now.archives)) }
    {
        let others = self.others.copy(alloc)?;
        let archives = self.archives.copy(alloc)?;
        Ok((others, self.merged.duplicate(alloc)?, archives))
    }

    fn has_same_work(&self, other: &RunRow) -> bool
        ensures { IsTrue result ↔ ((self.now.key ≡ other.now.key) × (self.now.test ≡ other.now.test) × (self.now.tool ≡ other.now.tool)
            × (self.now.priority ≡ other.now.priority) × (self.now.participants ≡ other.now.participants) × (self.now.asker ≡ other.now.asker)) }
    {
        self.key == other.key
            && self.test.same(&other.test)
            && self.tool.same(&other.tool)
            && self.priority == other.priority
            && self.participants.same(&other.participants)
            && self.asker.same(&other.asker)
    }

    fn has_same_moments(&self, other: &RunRow) -> bool
        ensures { IsTrue result ↔ ((self.now.interval ≡ other.now.interval) × (self.now.accepted ≡ other.now.accepted) × (self.now.confirmed ≡ other.now.confirmed)
            × (self.now.started ≡ other.now.started) × (self.now.material ≡ other.now.material) × (self.now.asked ≡ other.now.asked)) }
    {
        self.interval == other.interval
            && self.accepted == other.accepted
            && self.confirmed == other.confirmed
            && self.started == other.started
            && self.material == other.material
            && self.asked == other.asked
    }

    fn has_same_ends(&self, other: &RunRow) -> bool
        ensures { IsTrue result ↔ ((self.now.ended ≡ other.now.ended) × (self.now.closed ≡ other.now.closed)) }
    {
        self.ended.same(&other.ended) && self.closed.same(&other.closed)
    }

    fn has_same_lead(&self, other: &RunRow) -> bool
        ensures { IsTrue result ↔ ((self.now.question ≡ other.now.question) × (self.now.others ≡ other.now.others) × (self.now.merged ≡ other.now.merged)
            × (self.now.archives ≡ other.now.archives)) }
    {
        self.question == other.question
            && self.others.same(&other.others)
            && self.merged.same(&other.merged)
            && self.archives.same(&other.archives)
    }
}

impl Duplicate for RunRow {
    fn duplicate(&self, alloc: Global) -> Result<RunRow, Memory> {
        self.copy(alloc)
    }
}

impl Same for RunRow {
    fn same(&self, other: &RunRow) -> bool {
        self.has_same_work(other)
            && self.has_same_moments(other)
            && self.has_same_ends(other)
            && self.has_same_lead(other)
    }
}
