//! Kinds of tests and their names.
ghost use Rattle.std.specs.Prelude.{◌≡◌, Contains};
ghost use Rattle.std.specs.Cmp.Lexicographic.{slice_cmp};
ghost use Rattle.std.specs.Ordering.{nat_cmp};
ghost use Rattle.ps_time.specs.Sorted.{IsAscending};
ghost use Rattle.plugin_core.specs.Kind.{kind_text, kind_of_text, kind_class, kinds_by_name, test_kind};
ghost use Rattle.plugin_core.specs.TestSpec.{test_class};
ghost use Rattle.plugin_core.specs.declared.kind.TestKind.{TestKind};
ghost use Rattle.plugin_core.specs.declared.test_spec.TestSpec.{TestSpec};

use crate::test_spec::TestSpec;
use ps_time::class::Class;
use ps_time::duplicate::Duplicate;
use ps_time::memory::Memory;
use std::alloc::Global;

/// A kind of test, as the pScheduler reference names it; `Idlemany` is psched's own.
#[derive(Clone, Copy)]
pub enum TestKind {
    Idle,
    Idleex,
    Idlebgm,
    Idlemany,
    Simplestream,
}

impl Duplicate for TestKind {
    fn duplicate(&self, _alloc: Global) -> Result<TestKind, Memory> {
        Ok(*self)
    }
}

static KINDS: [TestKind; 5] = [
    TestKind::Idle,
    TestKind::Idlebgm,
    TestKind::Idleex,
    TestKind::Idlemany,
    TestKind::Simplestream,
];

/// Every kind of test, ascending by name.
pub fn kinds() -> &'static [TestKind]
    ensures list { result.now ≡ kinds_by_name }
    ensures every { (kind : TestKind) → Contains result.now kind }
    ensures ascending { IsAscending (slice_cmp nat_cmp) kind_text result.now }
{
    &KINDS
}

/// The class in which tests of the kind run.
pub fn class_of_kind(kind: TestKind) -> Class
    ensures class { result ≡ kind_class kind }
    ensures tests { (test : TestSpec) → test_kind test ≡ kind → test_class test ≡ result }
{
    match kind {
        TestKind::Idle => Class::Background,
        TestKind::Idleex => Class::Exclusive,
        TestKind::Idlebgm => Class::BackgroundMulti,
        TestKind::Idlemany => Class::Exclusive,
        TestKind::Simplestream => Class::Normal,
    }
}

/// The name of the kind.
pub fn kind_name(kind: TestKind) -> &'static str
    ensures { result.now ≡ kind_text kind }
{
    match kind {
        TestKind::Idle => "idle",
        TestKind::Idleex => "idleex",
        TestKind::Idlebgm => "idlebgm",
        TestKind::Idlemany => "idlemany",
        TestKind::Simplestream => "simplestream",
    }
}

/// The kind of a name; `None` exactly for every other text.
pub fn read_kind(text: &str) -> Option<TestKind>
    ensures { result ≡ kind_of_text text.now }
{
    match text {
        "idle" => Some(TestKind::Idle),
        "idleex" => Some(TestKind::Idleex),
        "idlebgm" => Some(TestKind::Idlebgm),
        "idlemany" => Some(TestKind::Idlemany),
        "simplestream" => Some(TestKind::Simplestream),
        _ => None,
    }
}

/// The kind of the test.
pub fn kind_of(test: &TestSpec) -> TestKind
    ensures { result ≡ test_kind test.now }
{
    match test {
        TestSpec::Idle(_) => TestKind::Idle,
        TestSpec::Idleex(_) => TestKind::Idleex,
        TestSpec::Idlebgm { .. } => TestKind::Idlebgm,
        TestSpec::Idlemany { .. } => TestKind::Idlemany,
        TestSpec::Simplestream { .. } => TestKind::Simplestream,
    }
}
