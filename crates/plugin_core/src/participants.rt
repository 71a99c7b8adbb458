//! Who takes part in a run.
ghost use Rattle.std.specs.Prelude.{◌≡◌, [], ◌∷◌, ℕ, List, true, IfOk};
ghost use Rattle.ps_time.specs.Name.{is_name};
ghost use Rattle.plugin_core.specs.Bounds.{IsTest};
ghost use Rattle.plugin_core.specs.Participants.{participants, is_named, HasParticipants};
ghost use Rattle.plugin_core.specs.declared.test_spec.TestSpec.{TestSpec};

use crate::test_spec::TestSpec;
use ps_time::items::Items;
use ps_time::memory::Memory;
use ps_time::text::Text;
use std::alloc::Global;

/// The names of those that take part in a run that this lead leads.
pub fn participants_of(alloc: Global, test: &TestSpec, lead: &str) -> Result<Items<Text>, Memory>
    ensures names { IfOk result (λ names. names ≡ participants test.now lead.now) }
    ensures bounds { IsTest test.now → is_name lead.now ≡ true → IfOk result HasParticipants }
{
    match test {
        TestSpec::Idlemany { hosts, .. } => hosts.copy(alloc),
        TestSpec::Simplestream { dest, .. } if !dest.is(lead) => {
            let mut names = just(alloc, lead)?;
            names.push(dest.copy(alloc)?)?;
            Ok(names)
        }
        _ => just(alloc, lead),
    }
}

fn just(alloc: Global, name: &str) -> Result<Items<Text>, Memory>
    ensures { IfOk result (λ names. names ≡ name.now ∷ []) }
{
    let mut names = Vec::with_capacity(alloc, 1)?;
    names.push(Text::new(alloc, name)?)?;
    Ok(Items::from_vec(names))
}

/// Whether the host takes part in a run that this lead leads.
pub fn is_participant(test: &TestSpec, lead: &str, host: &str) -> bool
    ensures { result ≡ is_named host.now (participants test.now lead.now) }
{
    match test {
        TestSpec::Idlemany { hosts, .. } => is_named(hosts.as_slice(), host),
        TestSpec::Simplestream { dest, .. } => host == lead || dest.is(host),
        _ => host == lead,
    }
}

/// Whether the name is among these.
pub fn is_named(names: &[Text], name: &str) -> bool
    ensures { result ≡ is_named name.now names.now }
{
    for other in names {
        if other.as_str() == name {
            return true;
        }
    }
    false
}

/// A law: a run of a test that keeps its bounds has 1 to 8 participants, each a name, where the lead's is
/// one.
pub fn law_participants()
    ensures { (test : TestSpec) (lead : List ℕ) → IsTest test → is_name lead ≡ true
        → HasParticipants (participants test lead) }
{}
