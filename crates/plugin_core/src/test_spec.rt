//! What a run measures, with the parameters of each kind of test.
ghost use Rattle.std.specs.Prelude.{◌≡◌, ◌≤◌, ◌↔◌, IsTrue, IfOk};
ghost use Rattle.ps_time.specs.declared.moment.TheConstants.{MAX_LENGTH};
ghost use Rattle.plugin_core.specs.TestSpec.{sleep_of, test_class, test_length};
ghost use Rattle.plugin_core.specs.declared.test_spec.TestSpec.{TestSpec};

use ps_time::class::Class;
use ps_time::duplicate::Duplicate;
use ps_time::items::Items;
use ps_time::memory::Memory;
use ps_time::moment::Length;
use ps_time::same::Same;
use ps_time::text::Text;
use std::alloc::Global;

/// What the tests that sleep have in common.
pub struct Sleep {
    /// How long, in seconds, at least 1.
    pub duration: Length,
    /// A note on the start of the run, at most 1,024 bytes.
    pub starting_comment: Option<Text>,
    /// A note on its end, at most 1,024 bytes.
    pub parting_comment: Option<Text>,
}

// Written out, so that a drop elsewhere is one call, and not a case for each comment.
impl Drop for Sleep {
    fn drop(self) {
        let Sleep {
            duration: _,
            starting_comment: _,
            parting_comment: _,
        } = self;
    }
}

impl Sleep {
    /// A sleep of so many seconds, without comments.
    pub fn of(duration: Length) -> Sleep
        ensures { result ≡ sleep_of duration }
    {
        Sleep {
            duration,
            starting_comment: None,
            parting_comment: None,
        }
    }

    /// The same sleep once more.
    pub fn copy(&self, alloc: Global) -> Result<Sleep, Memory>
        ensures { IfOk result (λ made. made ≡ self.now) }
    {
        Ok(Sleep {
            duration: self.duration,
            starting_comment: self.starting_comment.duplicate(alloc)?,
            parting_comment: self.parting_comment.duplicate(alloc)?,
        })
    }
}

impl Duplicate for Sleep {
    fn duplicate(&self, alloc: Global) -> Result<Sleep, Memory> {
        self.copy(alloc)
    }
}

impl Same for Sleep {
    fn same(&self, other: &Sleep) -> bool {
        self.duration == other.duration
            && self.starting_comment.same(&other.starting_comment)
            && self.parting_comment.same(&other.parting_comment)
    }
}

/// A test and its parameters, as the pScheduler reference names them; `Idlemany` is psched's own.
/// Lengths are whole seconds.
pub enum TestSpec {
    /// The lead sleeps.
    Idle(Sleep),
    /// The lead sleeps, and nothing else measures there.
    Idleex(Sleep),
    /// The lead sleeps in the background, and tells each interval that has passed.
    Idlebgm {
        /// Its duration and comments.
        sleep: Sleep,
        /// At least 1 s and at most the duration, of which it is at least the 65th part.
        interval: Length,
    },
    /// Several hosts sleep at once, and nothing else measures there.
    Idlemany {
        /// Its duration and comments.
        sleep: Sleep,
        /// Who takes part: 2 to 8 different names of hosts.
        hosts: Items<Text>,
    },
    /// The lead sends a text to another host.
    Simplestream {
        /// The name of the host that the text goes to, which may be the lead's own.
        dest: Text,
        /// The text, at most 8,192 bytes.
        test_material: Text,
        /// How long the lead waits before it sends.
        dawdle: Length,
        /// How long after that both wait for the text to come, at least 1 s.
        timeout: Length,
    },
}

// Written out, so that a drop elsewhere is one call, and not a case for each kind.
impl Drop for TestSpec {
    fn drop(self) {
        match self {
            TestSpec::Idle(_) => {}
            TestSpec::Idleex(_) => {}
            TestSpec::Idlebgm {
                sleep: _,
                interval: _,
            } => {}
            TestSpec::Idlemany { sleep: _, hosts: _ } => {}
            TestSpec::Simplestream {
                dest: _,
                test_material: _,
                dawdle: _,
                timeout: _,
            } => {}
        }
    }
}

/// The class in which the test runs.
pub fn class_of(test: &TestSpec) -> Class
    ensures { result ≡ test_class test.now }
{
    match test {
        TestSpec::Idle(_) => Class::Background,
        TestSpec::Idleex(_) => Class::Exclusive,
        TestSpec::Idlebgm { .. } => Class::BackgroundMulti,
        TestSpec::Idlemany { .. } => Class::Exclusive,
        TestSpec::Simplestream { .. } => Class::Normal,
    }
}

/// How long a run of the test takes, in seconds.
pub fn length_of(test: &TestSpec) -> Length
    requires { test_length test.now ≤ MAX_LENGTH }
    ensures { result ≡ test_length test.now }
{
    match test {
        TestSpec::Idle(sleep) => sleep.duration,
        TestSpec::Idleex(sleep) => sleep.duration,
        TestSpec::Idlebgm { sleep, .. } => sleep.duration,
        TestSpec::Idlemany { sleep, .. } => sleep.duration,
        TestSpec::Simplestream {
            dawdle,
            timeout,
            ..
        } => *dawdle + *timeout,
    }
}

fn copy_many(alloc: Global, sleep: &Sleep, hosts: &Items<Text>) -> Result<TestSpec, Memory>
    ensures { IfOk result (λ made. made ≡ TestSpec.Idlemany sleep.now hosts.now) }
{
    Ok(TestSpec::Idlemany {
        sleep: sleep.copy(alloc)?,
        hosts: hosts.copy(alloc)?,
    })
}

fn copy_stream(
    alloc: Global,
    dest: &Text,
    material: &Text,
    dawdle: Length,
    timeout: Length,
) -> Result<TestSpec, Memory>
    ensures { IfOk result (λ made. made ≡ TestSpec.Simplestream dest.now material.now dawdle timeout) }
{
    Ok(TestSpec::Simplestream {
        dest: dest.copy(alloc)?,
        test_material: material.copy(alloc)?,
        dawdle,
        timeout,
    })
}

impl TestSpec {
    /// The same test once more.
    pub fn copy(&self, alloc: Global) -> Result<TestSpec, Memory>
        ensures { IfOk result (λ made. made ≡ self.now) }
    {
        match self {
            TestSpec::Idle(sleep) => Ok(TestSpec::Idle(sleep.copy(alloc)?)),
            TestSpec::Idleex(sleep) => Ok(TestSpec::Idleex(sleep.copy(alloc)?)),
            TestSpec::Idlebgm { sleep, interval } => Ok(TestSpec::Idlebgm {
                sleep: sleep.copy(alloc)?,
                interval: *interval,
            }),
            TestSpec::Idlemany { sleep, hosts } => copy_many(alloc, sleep, hosts),
            TestSpec::Simplestream {
                dest,
                test_material,
                dawdle,
                timeout,
            } => copy_stream(alloc, dest, test_material, *dawdle, *timeout),
        }
    }
}

impl Duplicate for TestSpec {
    fn duplicate(&self, alloc: Global) -> Result<TestSpec, Memory> {
        self.copy(alloc)
    }
}

fn is_idle(test: &TestSpec, sleep: &Sleep) -> bool
    ensures { IsTrue result ↔ (TestSpec.Idle sleep.now ≡ test.now) }
{
    match test {
        TestSpec::Idle(other) => sleep.same(other),
        _ => false,
    }
}

fn is_idleex(test: &TestSpec, sleep: &Sleep) -> bool
    ensures { IsTrue result ↔ (TestSpec.Idleex sleep.now ≡ test.now) }
{
    match test {
        TestSpec::Idleex(other) => sleep.same(other),
        _ => false,
    }
}

fn is_idlebgm(test: &TestSpec, sleep: &Sleep, interval: Length) -> bool
    ensures { IsTrue result ↔ (TestSpec.Idlebgm sleep.now interval ≡ test.now) }
{
    match test {
        TestSpec::Idlebgm {
            sleep: s,
            interval: i,
        } => interval == *i && sleep.same(s),
        _ => false,
    }
}

fn is_idlemany(test: &TestSpec, sleep: &Sleep, hosts: &Items<Text>) -> bool
    ensures { IsTrue result ↔ (TestSpec.Idlemany sleep.now hosts.now ≡ test.now) }
{
    match test {
        TestSpec::Idlemany { sleep: s, hosts: h } => sleep.same(s) && hosts.same(h),
        _ => false,
    }
}

fn is_simplestream(
    test: &TestSpec,
    dest: &Text,
    material: &Text,
    dawdle: Length,
    timeout: Length,
) -> bool
    ensures { IsTrue result ↔ (TestSpec.Simplestream dest.now material.now dawdle timeout ≡ test.now) }
{
    match test {
        TestSpec::Simplestream {
            dest: d,
            test_material: m,
            dawdle: w,
            timeout: t,
        } => dest.same(d) && material.same(m) && dawdle == *w && timeout == *t,
        _ => false,
    }
}

impl Same for TestSpec {
    fn same(&self, other: &TestSpec) -> bool {
        match self {
            TestSpec::Idle(sleep) => is_idle(other, sleep),
            TestSpec::Idleex(sleep) => is_idleex(other, sleep),
            TestSpec::Idlebgm { sleep, interval } => is_idlebgm(other, sleep, *interval),
            TestSpec::Idlemany { sleep, hosts } => is_idlemany(other, sleep, hosts),
            TestSpec::Simplestream {
                dest,
                test_material,
                dawdle,
                timeout,
            } => is_simplestream(other, dest, test_material, *dawdle, *timeout),
        }
    }
}
