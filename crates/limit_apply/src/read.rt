//! The reader of configurations.
ghost use Rattle.std.specs.Prelude.{◌≡◌, ◌<◌, ◌^◌, ◌↔◌, ℕ, List, IsTrue, Ok, Some, codes, IfOk, IfErr, OnOk};
ghost use Rattle.serde_json.specs.View.{view};
ghost use Rattle.ps_json.specs.Answer.{GivesUnless};
ghost use Rattle.ps_json.specs.Fields.{without_member};
ghost use Rattle.ps_json.specs.Member.{required};
ghost use Rattle.limit_ident.specs.Fault.{wrapped};
ghost use Rattle.limit_ident.specs.Plain.{IsPlain, IsFlat, IsTold};
ghost use Rattle.limit_apply.specs.Limits.{LimitsConfig};
ghost use Rattle.limit_apply.specs.ReadApplications.{applications_in};
ghost use Rattle.limit_rule.specs.ReadLimits.{limits_in};
ghost use Rattle.limit_apply.specs.Read.{schema_in, schema_of, identifiers_in, classifiers_in, lists_of, after_lists, AreCounted, parts_of, config, ended_priorities, config_of, config_in, of_own, own_config, IsKept, IsLimitsText};

use crate::application::Application;
use crate::bare::{copy_bare, plain_text};
use crate::limits::{Limits, Priorities};
use crate::read_applications::{read_applications, read_priorities};
use limit_ident::classifier::{Classifier, Classifiers};
use limit_ident::fault::LimitFault;
use limit_ident::identifier::{Identifier, Identifiers};
use limit_ident::member::{end_described, read_whole};
use limit_ident::named::Entries;
use limit_ident::read_classifiers::read_classifiers;
use limit_ident::read_identifiers::read_identifiers;
use limit_rule::limit::Limit;
use limit_rule::read_limits::read_limits;
use ps_json::fields::Fields;
use ps_json::tree::read_tree;
use ps_time::items::Items;
use ps_time::memory::Memory;
use ps_time::text::Text;
use serde_json::Value;
use std::alloc::Global;

/// The lists of a configuration.
pub struct Lists {
    identifiers: Entries<Identifier>,
    classifiers: Entries<Classifier>,
    limits: Entries<Limit>,
    applications: Items<Application>,
}

// Written out, so that a drop elsewhere is one call.
impl Drop for Lists {
    fn drop(self) {
        let Lists {
            identifiers: _,
            classifiers: _,
            limits: _,
            applications: _,
        } = self;
    }
}

fn read_schema(alloc: Global, value: Value) -> Result<(), LimitFault>
    ensures { GivesUnless LimitFault.Memory result (schema_in (codes "schema") (view value)) }
{
    read_whole(alloc, value, "schema", "schema", 1, 5)?;
    Ok(())
}

fn take_schema(alloc: Global, fields: &mut Fields) -> Result<(), LimitFault>
    ensures value { GivesUnless LimitFault.Memory result (schema_of fields.old) }
    ensures rest { fields.new ≡ without_member (codes "schema") fields.old }
{
    match fields.take("schema") {
        None => Ok(()),
        Some(value) => read_schema(alloc, value),
    }
}

fn need_identifiers(alloc: Global, fields: &mut Fields) -> Result<Entries<Identifier>, LimitFault>
    ensures value { GivesUnless LimitFault.Memory result (required wrapped identifiers_in (codes "identifiers") fields.old) }
    ensures rest { fields.new ≡ without_member (codes "identifiers") fields.old }
{
    let value = fields.need(alloc, "identifiers")?;
    read_identifiers(alloc, value)
}

fn need_classifiers(
    alloc: Global,
    fields: &mut Fields,
    identifiers: &Entries<Identifier>,
) -> Result<Entries<Classifier>, LimitFault>
    ensures value { GivesUnless LimitFault.Memory result
        (required wrapped (classifiers_in identifiers.now) (codes "classifiers") fields.old) }
    ensures rest { fields.new ≡ without_member (codes "classifiers") fields.old }
{
    let value = fields.need(alloc, "classifiers")?;
    read_classifiers(alloc, value, identifiers)
}

fn need_limits(alloc: Global, fields: &mut Fields) -> Result<Entries<Limit>, LimitFault>
    ensures value { GivesUnless LimitFault.Memory result (required wrapped limits_in (codes "limits") fields.old) }
    ensures rest { fields.new ≡ without_member (codes "limits") fields.old }
{
    let value = fields.need(alloc, "limits")?;
    read_limits(alloc, value)
}

fn need_applications(
    alloc: Global,
    fields: &mut Fields,
    classifiers: &Entries<Classifier>,
    limits: &Entries<Limit>,
) -> Result<Items<Application>, LimitFault>
    ensures value { GivesUnless LimitFault.Memory result
        (required wrapped (applications_in classifiers.now limits.now) (codes "applications") fields.old) }
    ensures rest { fields.new ≡ without_member (codes "applications") fields.old }
{
    let value = fields.need(alloc, "applications")?;
    read_applications(alloc, value, classifiers, limits)
}

fn take_lists(alloc: Global, fields: &mut Fields) -> Result<Lists, LimitFault>
    ensures value { GivesUnless LimitFault.Memory result (lists_of fields.old) }
    ensures rest { OnOk result (fields.new ≡ after_lists fields.old) }
{
    let identifiers = need_identifiers(alloc, fields)?;
    let classifiers = need_classifiers(alloc, fields, &identifiers)?;
    let limits = need_limits(alloc, fields)?;
    let applications = need_applications(alloc, fields, &classifiers, &limits)?;
    Ok(Lists {
        identifiers,
        classifiers,
        limits,
        applications,
    })
}

fn fits(length: usize) -> bool
    ensures { IsTrue result ↔ (length < 2 ^ 32) }
{
    length <= u32::MAX as usize
}

impl Lists {
    fn fit(&self) -> bool
        ensures { IsTrue result → AreCounted self.now }
    {
        fits(self.identifiers.len())
            && fits(self.classifiers.len())
            && fits(self.limits.len())
            && fits(self.applications.len())
    }

    /// The configuration. A list of 2^32 entries or more is answered as out of memory.
    fn counted(self, priorities: Priorities, text: Text) -> Result<Limits, LimitFault>
        requires { config_in text ≡ Ok (config self priorities text) }
        ensures { GivesUnless LimitFault.Memory result (Ok (config self priorities text)) }
    {
        if !self.fit() {
            return Err(LimitFault::Memory);
        }
        let Lists {
            identifiers,
            classifiers,
            limits,
            applications,
        } = self;
        Ok(Limits {
            identifiers: Identifiers::from_entries(identifiers),
            classifiers: Classifiers::from_entries(classifiers),
            limits: limits.into_items(),
            applications,
            priorities,
            text,
        })
    }
}

/// The priorities, and the end of the configuration.
fn take_priorities(
    alloc: Global,
    mut fields: Fields,
    classifiers: &Entries<Classifier>,
) -> Result<Priorities, LimitFault>
    ensures { GivesUnless LimitFault.Memory result (ended_priorities classifiers.now fields) }
{
    let priorities = read_priorities(alloc, fields.take("priorities"), classifiers)?;
    end_described(alloc, fields)?;
    Ok(priorities)
}

/// The entries and priorities of a tree.
#[tactic(auto, unfolding(crate::specs::Read::parts_of))]
fn read_parts(alloc: Global, value: Value) -> Result<(Lists, Priorities), LimitFault>
    ensures { GivesUnless LimitFault.Memory result (parts_of (view value)) }
{
    let mut fields = Fields::open(alloc, value, "limits")?;
    take_schema(alloc, &mut fields)?;
    let lists = take_lists(alloc, &mut fields)?;
    let priorities = take_priorities(alloc, fields, &lists.classifiers)?;
    Ok((lists, priorities))
}

/// The entries and priorities of a tree without comments, whose names ascend. One that is accepted is flat, with whole numbers.
fn read_plain(alloc: Global, value: Value) -> Result<(Lists, Priorities), LimitFault>
    requires { IsPlain (view value) }
    ensures value { GivesUnless LimitFault.Memory result (parts_of (view value)) }
    ensures flat { OnOk result (IsFlat 64 (view value)) }
    ensures told { IfErr result IsTold }
{
    read_parts(alloc, value)
}

impl Limits {
    /// The configuration that a tree is. The first refusal comes, in the order in which
    /// `docs/specification/limits.md` names the members.
    #[tactic(auto, using(crate::proofs::ReadLemmas::read_again))]
    pub fn read(alloc: Global, value: Value) -> Result<Limits, LimitFault>
        ensures value { GivesUnless LimitFault.Memory result (config_of (view value)) }
        ensures told { IfErr result IsTold }
    {
        let value = copy_bare(alloc, &value)?;
        let text = plain_text(alloc, &value)?;
        let (lists, priorities) = read_plain(alloc, value)?;
        let Some(text) = text else {
            unreachable!();
        };
        lists.counted(priorities, text)
    }

    /// The configuration that a JSON text is, or the first refusal.
    #[tactic(auto, unfolding(crate::specs::Read::config_in))]
    pub fn from_text(alloc: Global, bytes: &[u8]) -> Result<Limits, LimitFault>
        ensures value { GivesUnless LimitFault.Memory result (config_in bytes.now) }
        ensures told { IfErr result IsTold }
    {
        let value = read_tree(alloc, bytes)?;
        Limits::read(alloc, value)
    }

    /// The configuration that has exactly this text, if one has.
    pub fn from_own_text(alloc: Global, text: &str) -> Result<Option<Limits>, Memory>
        ensures { IfOk result (λ found. found ≡ own_config text.now) }
    {
        match Limits::from_text(alloc, text.as_bytes()) {
            Ok(limits) => Ok(limits.of_own(text)),
            Err(LimitFault::Memory) => Err(Memory),
            Err(_) => Ok(None),
        }
    }

    /// The configuration of a text that is one's own. So only memory may run out.
    pub fn read_kept(alloc: Global, text: &str) -> Result<Limits, Memory>
        requires { IsLimitsText text.now }
        ensures { IfOk result (λ config. config_in text.now ≡ Ok config) }
    {
        match Limits::from_text(alloc, text.as_bytes()) {
            Ok(limits) => Ok(limits),
            Err(_) => Err(Memory),
        }
    }

    /// The configuration, where this is its own text.
    fn of_own(self, text: &str) -> Option<Limits>
        ensures { result ≡ of_own text.now (Ok self) }
    {
        if self.text.as_str() == text {
            Some(self)
        } else {
            None
        }
    }
}

/// Laws: the texts that are a configuration's own are those of which `from_own_text` gives it, and each kept
/// configuration's text is its own.
pub fn law_own_texts()
    ensures sound { (text : List ℕ) (config : LimitsConfig) → own_config text ≡ Some config → (config_in text ≡ Ok config) × (config.text ≡ text) }
    ensures complete { (text : List ℕ) (own : IsLimitsText text) → own_config text ≡ Some own.config }
    ensures kept { (config : LimitsConfig) → IsKept config → IsLimitsText config.text }
{}
