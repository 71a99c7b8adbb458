//! A configuration of limits, and what it answers.
ghost use Rattle.std.specs.Prelude.{◌≡◌, ◌≢◌, ℤ, [], ◌∷◌, IfOk, Ok};
ghost use Rattle.limit_apply.specs.Limits.{LimitsConfig, verdict_at, permits_of, below_ceiling, admits_of, greatest, held_ceilings, ceiling_of, IsPriority, holds_at, counts_of};
ghost use Rattle.limit_apply.specs.Read.{config_in, IsKept};

use crate::application::Application;
use limit_ident::classifier::Classifiers;
use limit_ident::identifier::Identifiers;
use limit_ident::known_asker::KnownAsker;
use limit_ident::named::Named;
use limit_rule::limit::Limit;
use plugin_core::test_spec::TestSpec;
use ps_time::asker::{Asker, Verdict};
use ps_time::duplicate::Duplicate;
use ps_time::interval::Interval;
use ps_time::items::Items;
use ps_time::memory::Memory;
use ps_time::text::Text;
use std::alloc::Global;
use std::marker::Model;

/// The greatest priority of those of whom a classifier holds.
#[derive(Clone, Copy)]
pub struct Ceiling {
    /// The place of the classifier.
    pub classifier: usize,
    pub ceiling: i16,
}

impl Duplicate for Ceiling {
    fn duplicate(&self, _alloc: Global) -> Result<Ceiling, Memory> {
        Ok(*self)
    }
}

/// Up to which priority each may ask for a run.
#[derive(Drop)]
pub struct Priorities {
    /// The ceiling of those of whom no classifier holds that has one.
    pub default: i16,
    pub ceilings: Items<Ceiling>,
}

impl Duplicate for Priorities {
    fn duplicate(&self, alloc: Global) -> Result<Priorities, Memory> {
        Ok(Priorities {
            default: self.default,
            ceilings: self.ceilings.copy(alloc)?,
        })
    }
}

/// How many entries a configuration has.
#[derive(Clone, Copy)]
pub struct Counts {
    pub identifiers: u32,
    pub classifiers: u32,
    pub limits: u32,
    pub applications: u32,
}

/// A configuration, seen by contracts as the lists of its entries, each of fewer than 2^32.
pub struct Limits {
    pub(crate) identifiers: Identifiers,
    pub(crate) classifiers: Classifiers,
    pub(crate) limits: Items<Named<Limit>>,
    pub(crate) applications: Items<Application>,
    pub(crate) priorities: Priorities,
    pub(crate) text: Text,
}

impl Model for Limits {
    ghost use Rattle.limit_apply.specs.Limits.{LimitsConfig};
    ghost use Rattle.limit_apply.specs.Read.{IsKept};

    ghost Value = { LimitsConfig };

    ghost view = { λ l. record { identifiers = l.identifiers; classifiers = l.classifiers; limits = l.limits; applications = l.applications; priorities = l.priorities; text = l.text } };

    ghost invariant = { λ l. IsKept (record { identifiers = l.identifiers; classifiers = l.classifiers; limits = l.limits; applications = l.applications; priorities = l.priorities; text = l.text }) };
}

// Written out, so that a drop elsewhere is one call.
impl Drop for Limits {
    fn drop(self) {
        let Limits {
            identifiers: _,
            classifiers: _,
            limits: _,
            applications: _,
            priorities: _,
            text: _,
        } = self;
    }
}

impl Limits {
    /// How many identifiers, classifiers, limits and applications there are.
    pub fn counts(&self) -> Counts
        ensures { result ≡ counts_of self.now }
    {
        Counts {
            identifiers: self.identifiers.len() as u32,
            classifiers: self.classifiers.len() as u32,
            limits: self.limits.len() as u32,
            applications: self.applications.len() as u32,
        }
    }

    /// Whether the classifier at this place holds; none stands past the end, and doesn't hold.
    fn holds(&self, place: usize, asker: &KnownAsker) -> bool
        ensures { result ≡ holds_at self.now asker.now place }
    {
        place < self.classifiers.len() && self.classifiers.holds(place, &self.identifiers, asker)
    }

    /// The greater of a ceiling and that of an entry, where its classifier holds.
    fn raised(&self, asker: &KnownAsker, ceiling: i16, entry: Ceiling) -> i16
        ensures { result ≡ greatest ceiling (held_ceilings self.now asker.now (entry ∷ [])) }
    {
        if entry.ceiling > ceiling && self.holds(entry.classifier, asker) {
            return entry.ceiling;
        }
        ceiling
    }

    fn greatest_ceiling(&self, asker: &KnownAsker) -> i16
        ensures { result ≡ ceiling_of self.now asker.now }
    {
        let mut greatest = self.priorities.default;
        for entry in self.priorities.ceilings.as_slice() {
            greatest = self.raised(asker, greatest, *entry);
        }
        greatest
    }

    /// The greatest priority that the asker may have: the greatest of the default and of those of
    /// classifiers that hold.
    pub fn ceiling(&self, asker: &Asker) -> i16
        ensures value { result ≡ ceiling_of self.now asker.now }
        ensures within { IsPriority result }
    {
        let _known = &self.priorities;
        self.greatest_ceiling(&KnownAsker::new(asker))
    }

    /// What the first application decides that takes part and decides anything.
    fn walk(&self, asker: &KnownAsker, test: &TestSpec, run: &Option<Interval>) -> Verdict
        ensures { result ≡ verdict_at self.now asker.now test.now run.now }
    {
        for index in 0..self.applications.len() {
            let application = &self.applications[index];
            if self.holds(application.classifier, asker) {
                if let Some(verdict) = application.decided(
                    index as u32,
                    self.limits.as_slice(),
                    test,
                    run,
                ) {
                    return verdict;
                }
            }
        }
        Verdict::Exhausted
    }

    /// What is said where the application at this place permits.
    fn below_ceiling(&self, asker: &KnownAsker, place: u32, priority: i16) -> Verdict
        ensures { result ≡ below_ceiling self.now asker.now priority (Verdict.Permitted place) }
    {
        let ceiling = self.greatest_ceiling(asker);
        if priority > ceiling {
            return Verdict::AboveCeiling(ceiling);
        }
        Verdict::Permitted(place)
    }

    /// What the limits say of a run of the test at this priority.
    pub fn permits(
        &self,
        asker: &Asker,
        test: &TestSpec,
        interval: &Interval,
        priority: i16,
    ) -> Verdict
        ensures { result ≡ permits_of self.now asker.now test.now interval.now priority }
    {
        let asker = KnownAsker::new(asker);
        match self.walk(&asker, test, &Some(*interval)) {
            Verdict::Permitted(place) => self.below_ceiling(&asker, place, priority),
            verdict => verdict,
        }
    }

    fn walk_without_run(&self, asker: &Asker, test: &TestSpec) -> Verdict
        ensures { result ≡ admits_of self.now asker.now test.now }
    {
        self.walk(&KnownAsker::new(asker), test, &None)
    }

    /// What they say of the test before there is a run.
    pub fn admits(&self, asker: &Asker, test: &TestSpec) -> Verdict
        ensures value { result ≡ admits_of self.now asker.now test.now }
        ensures never { (ceiling : ℤ) → result ≢ Verdict.AboveCeiling ceiling }
    {
        self.walk_without_run(asker, test)
    }

    /// The compact text of the configuration without its comments. Two configurations of the same text are the
    /// same.
    pub fn text(&self) -> &str
        ensures text { result.now ≡ self.now.text }
        ensures again { config_in result.now ≡ Ok self.now }
    {
        self.text.as_str()
    }

    /// The same configuration once more.
    pub fn copy(&self, alloc: Global) -> Result<Limits, Memory>
        ensures { IfOk result (λ made. made ≡ self.now) }
    {
        let identifiers = self.identifiers.copy(alloc)?;
        let classifiers = self.classifiers.copy(alloc)?;
        let (limits, applications) = self.copy_uses(alloc)?;
        let (priorities, text) = self.copy_told(alloc)?;
        Ok(Limits {
            identifiers,
            classifiers,
            limits,
            applications,
            priorities,
            text,
        })
    }

    fn copy_uses(&self, alloc: Global) -> Result<(Items<Named<Limit>>, Items<Application>), Memory>
        ensures { IfOk result (λ made. made ≡ (self.now.limits, self.now.applications)) }
    {
        let limits = self.limits.copy(alloc)?;
        Ok((limits, self.applications.copy(alloc)?))
    }

    fn copy_told(&self, alloc: Global) -> Result<(Priorities, Text), Memory>
        ensures { IfOk result (λ made. made ≡ (self.now.priorities, self.now.text)) }
    {
        let priorities = self.priorities.duplicate(alloc)?;
        Ok((priorities, self.text.copy(alloc)?))
    }
}

/// A law: the ceiling of every kept configuration is a priority.
pub fn law_ceiling()
    ensures { (config : LimitsConfig) (asker : Asker) → IsKept config → IsPriority (ceiling_of config asker) }
{}
