//! Applications: which limits are put to whom.
ghost use Rattle.std.specs.Prelude.{◌≡◌};
ghost use Rattle.std.specs.List.{list_any, list_all};
ghost use Rattle.limit_apply.specs.Application.{limit_at, run_limit_at, group_passes, cites_run, passes, decided};

use limit_ident::named::{Named, copy_places};
use limit_ident::require::{PlaceTest, Require};
use limit_rule::limit::Limit;
use plugin_core::test_spec::TestSpec;
use ps_time::asker::Verdict;
use ps_time::duplicate::Duplicate;
use ps_time::interval::Interval;
use ps_time::items::Items;
use ps_time::memory::Memory;
use std::alloc::Global;

/// Limits, and how many of them have to be true.
#[derive(Drop)]
pub struct Group {
    pub require: Require,
    /// Places of limits.
    pub limits: Items<usize>,
}

/// What is put to those of whom a classifier holds.
#[derive(Drop)]
pub struct Application {
    /// The place of the classifier.
    pub classifier: usize,
    /// Each of them has to pass.
    pub apply: Items<Group>,
    pub invert: bool,
    /// Whether a failure denies at once.
    pub stop_on_failure: bool,
}

impl Duplicate for Group {
    fn duplicate(&self, alloc: Global) -> Result<Group, Memory> {
        Ok(Group {
            require: self.require,
            limits: copy_places(alloc, self.limits.as_slice())?,
        })
    }
}

impl Duplicate for Application {
    fn duplicate(&self, alloc: Global) -> Result<Application, Memory> {
        Ok(Application {
            classifier: self.classifier,
            apply: self.apply.copy(alloc)?,
            invert: self.invert,
            stop_on_failure: self.stop_on_failure,
        })
    }
}

/// Whether the limit at this place is true; none stands past the end, and isn't true.
fn is_true(limits: &[Named<Limit>], place: usize, test: &TestSpec, run: &Option<Interval>) -> bool
    ensures { result ≡ limit_at limits.now test.now run.now place }
{
    place < limits.len() && limits[place].value.holds(test, run)
}

/// Whether the limit at this place speaks of runs.
fn is_of_runs(limits: &[Named<Limit>], place: usize) -> bool
    ensures { result ≡ run_limit_at limits.now place }
{
    place < limits.len() && limits[place].value.is_of_runs()
}

/// Which limits are true of a test, and of a run of it where there is one.
#[derive(Clone, Copy)]
struct AreTrue<'a> {
    limits: &'a [Named<Limit>],
    test: &'a TestSpec,
    run: &'a Option<Interval>,
}

impl<'a> PlaceTest for AreTrue<'a> {
    ghost use Rattle.limit_apply.specs.Application.{limit_at};

    ghost outcome = { λ t place. limit_at t.limits.now t.test.now t.run.now place };

    fn passes(&self, place: usize) -> bool {
        is_true(self.limits, place, self.test, self.run)
    }
}

impl Group {
    fn passes(&self, limits: &[Named<Limit>], test: &TestSpec, run: &Option<Interval>) -> bool
        ensures { result ≡ group_passes limits.now test.now run.now self.now }
    {
        let test = AreTrue { limits, test, run };
        self.require.is_met(self.limits.as_slice(), &test)
    }

    fn cites_run(&self, limits: &[Named<Limit>]) -> bool
        ensures { result ≡ list_any (run_limit_at limits.now) self.now.limits }
    {
        for place in self.limits.as_slice() {
            if is_of_runs(limits, *place) {
                return true;
            }
        }
        false
    }
}

impl Application {
    fn all_pass(&self, limits: &[Named<Limit>], test: &TestSpec, run: &Option<Interval>) -> bool
        ensures { result ≡ list_all (group_passes limits.now test.now run.now) self.now.apply }
    {
        for group in self.apply.as_slice() {
            if !group.passes(limits, test, run) {
                return false;
            }
        }
        true
    }

    fn passes(&self, limits: &[Named<Limit>], test: &TestSpec, run: &Option<Interval>) -> bool
        ensures { result ≡ passes limits.now test.now run.now self.now }
    {
        let pass = self.all_pass(limits, test, run);
        if self.invert { !pass } else { pass }
    }

    fn cites_run(&self, limits: &[Named<Limit>]) -> bool
        ensures { result ≡ cites_run limits.now self.now }
    {
        for group in self.apply.as_slice() {
            if group.cites_run(limits) {
                return true;
            }
        }
        false
    }

    /// What the application decides, where it stands at `index` and takes part: of a run, or before there is
    /// one.
    pub(crate) fn decided(
        &self,
        index: u32,
        limits: &[Named<Limit>],
        test: &TestSpec,
        run: &Option<Interval>,
    ) -> Option<Verdict>
        ensures { result ≡ decided limits.now test.now run.now index self.now }
    {
        if run.is_none() && self.cites_run(limits) {
            return Some(Verdict::Permitted(index));
        }
        if self.passes(limits, test, run) {
            return Some(Verdict::Permitted(index));
        }
        if self.stop_on_failure {
            return Some(Verdict::Stopped(index));
        }
        None
    }
}
