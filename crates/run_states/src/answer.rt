//! What a participant answers, and what the lead has heard of it.
ghost use Rattle.std.specs.Prelude.{◌≡◌, IfOk};
ghost use Rattle.run_states.specs.Effect.{is_acceptance, with_answer, with_free, with_result, with_told};

use ps_time::duplicate::Duplicate;
use ps_time::items::Items;
use ps_time::memory::Memory;
use ps_time::same::Same;
use ps_time::text::Text;
use ps_time::tiers::Tiers;
use std::alloc::Global;

/// The answer to a question for free starts.
#[derive(Drop)]
pub struct FreeAnswer {
    /// The names of the host's tools that run the test.
    pub tools: Items<Text>,
    /// The starts at which it is free, and those that preemption would free.
    pub tiers: Tiers,
}

impl FreeAnswer {
    /// The same answer once more.
    pub fn copy(&self, alloc: Global) -> Result<FreeAnswer, Memory>
        ensures { IfOk result (λ made. made ≡ self.now) }
    {
        Ok(FreeAnswer {
            tools: self.tools.copy(alloc)?,
            tiers: self.tiers.copy(alloc)?,
        })
    }
}

impl Duplicate for FreeAnswer {
    fn duplicate(&self, alloc: Global) -> Result<FreeAnswer, Memory> {
        self.copy(alloc)
    }
}

impl Same for FreeAnswer {
    fn same(&self, other: &FreeAnswer) -> bool {
        self.tools.same(&other.tools) && self.tiers.same(&other.tiers)
    }
}

/// What a participant was told, and acknowledges.
#[derive(Clone, Copy, Debug, PartialEq, Eq)]
pub enum Told {
    /// That the run is confirmed.
    Confirm,
    /// That it is canceled.
    Cancel,
    /// The test's material.
    Material,
}

/// What a participant answered.
#[derive(Drop)]
pub enum Answer {
    /// When it is free.
    Free(FreeAnswer),
    /// It accepts the run.
    Accepted,
    /// It acknowledges what it was told.
    Acknowledged(Told),
    /// Its result, a JSON text, or that it has none.
    Result(Option<Text>),
}

impl Answer {
    pub(crate) fn is_acceptance(&self) -> bool
        ensures { result ≡ is_acceptance self.now }
    {
        matches!(self, Answer::Accepted)
    }
}

/// What a lead knows of one other participant.
#[derive(Drop)]
pub struct Other {
    /// When it is free, where it answered.
    pub free: Option<FreeAnswer>,
    /// Whether it accepted.
    pub accepted: bool,
    /// Whether it acknowledged the confirmation.
    pub confirm_told: bool,
    /// Whether it acknowledged the cancellation.
    pub cancel_told: bool,
    /// Whether it acknowledged the test's material.
    pub material_told: bool,
    /// Its result, where one was heard; `Some(None)` where it is known to have none.
    pub heard: Option<Option<Text>>,
}

impl Other {
    /// Sets what the answer tells, unless it is known.
    pub fn hear(&mut self, answer: Answer)
        ensures { self.new ≡ with_answer answer self.old }
    {
        match answer {
            Answer::Free(answer) => self.hear_free(answer),
            Answer::Accepted => self.accepted = true,
            Answer::Acknowledged(told) => self.acknowledge(told),
            Answer::Result(answer) => self.hear_result(answer),
        }
    }

    fn hear_free(&mut self, answer: FreeAnswer)
        ensures { self.new ≡ with_free answer self.old }
    {
        if self.free.is_none() {
            drop(self.free.replace(answer));
        } else {
            drop(answer);
        }
    }

    fn acknowledge(&mut self, told: Told)
        ensures { self.new ≡ with_told told self.old }
    {
        match told {
            Told::Confirm => self.confirm_told = true,
            Told::Cancel => self.cancel_told = true,
            Told::Material => self.material_told = true,
        }
    }

    fn hear_result(&mut self, answer: Option<Text>)
        ensures { self.new ≡ with_result answer self.old }
    {
        if self.heard.is_none() {
            drop(self.heard.replace(answer));
        } else {
            drop(answer);
        }
    }

    /// The same answers once more.
    pub fn copy(&self, alloc: Global) -> Result<Other, Memory>
        ensures { IfOk result (λ made. made ≡ self.now) }
    {
        Ok(Other {
            free: self.free.duplicate(alloc)?,
            accepted: self.accepted,
            confirm_told: self.confirm_told,
            cancel_told: self.cancel_told,
            material_told: self.material_told,
            heard: self.heard.duplicate(alloc)?,
        })
    }
}

impl Duplicate for Other {
    fn duplicate(&self, alloc: Global) -> Result<Other, Memory> {
        self.copy(alloc)
    }
}

impl Same for Other {
    fn same(&self, other: &Other) -> bool {
        self.free.same(&other.free)
            && self.heard.same(&other.heard)
            && self.accepted == other.accepted
            && self.confirm_told == other.confirm_told
            && self.cancel_told == other.cancel_told
            && self.material_told == other.material_told
    }
}
