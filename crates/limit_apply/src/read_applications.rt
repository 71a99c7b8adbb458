//! The reader of applications and priorities.
ghost use Rattle.std.specs.Prelude.{◌≡◌, option_map, codes, IfOk, OnOk};
ghost use Rattle.serde_json.specs.View.{view};
ghost use Rattle.ps_json.specs.Answer.{GivesUnless};
ghost use Rattle.ps_json.specs.Fields.{without_member};
ghost use Rattle.ps_json.specs.Member.{required};
ghost use Rattle.limit_ident.specs.Fault.{wrapped};
ghost use Rattle.limit_ident.specs.ReadClassifiers.{require_in, places_in};
ghost use Rattle.limit_ident.specs.Named.{place_in};
ghost use Rattle.limit_apply.specs.Limits.{IsPriority};
ghost use Rattle.limit_apply.specs.ReadApplications.{apply_in, told_of, after_told, applications_in, ceiling_in, ceiling_of, default_of, ceilings_of, priorities_of};

use crate::application::{Application, Group};
use crate::limits::{Ceiling, Priorities};
use limit_ident::classifier::Classifier;
use limit_ident::fault::LimitFault;
use limit_ident::member::{end_described, read_whole, take_flag};
use limit_ident::named::{Entries, read_place};
use limit_ident::read_classifiers::{read_places, read_require};
use limit_ident::read_lists::{ReadItem, read_each_item, read_items};
use limit_ident::require::Require;
use limit_rule::limit::Limit;
use ps_json::fields::Fields;
use ps_json::kinds::read_list;
use ps_time::items::Items;
use serde_json::Value;
use std::alloc::Global;

fn need_require(alloc: Global, fields: &mut Fields) -> Result<Require, LimitFault>
    ensures value { GivesUnless LimitFault.Memory result (required wrapped require_in (codes "require") fields.old) }
    ensures rest { fields.new ≡ without_member (codes "require") fields.old }
{
    let value = fields.need(alloc, "require")?;
    read_require(alloc, value, "require")
}

fn need_limits(
    alloc: Global,
    fields: &mut Fields,
    limits: &Entries<Limit>,
) -> Result<Items<usize>, LimitFault>
    ensures value { GivesUnless LimitFault.Memory result
        (required wrapped (places_in limits.now) (codes "limits") fields.old) }
    ensures rest { fields.new ≡ without_member (codes "limits") fields.old }
{
    let value = fields.need(alloc, "limits")?;
    read_places(alloc, value, "limits", limits)
}

#[derive(Clone, Copy)]
struct GroupReader<'a> {
    limits: &'a Entries<Limit>,
}

impl<'a> ReadItem for GroupReader<'a> {
    type Item = Group;

    ghost use Rattle.limit_apply.specs.ReadApplications.{group_of};

    ghost item = { λ r d. group_of r.limits.now d };

    fn read_item(&self, alloc: Global, value: Value) -> Result<Group, LimitFault> {
        let mut fields = Fields::open(alloc, value, "apply")?;
        let require = need_require(alloc, &mut fields)?;
        let limits = need_limits(alloc, &mut fields, self.limits)?;
        end_described(alloc, fields)?;
        Ok(Group { require, limits })
    }
}

fn need_apply(
    alloc: Global,
    fields: &mut Fields,
    limits: &Entries<Limit>,
) -> Result<Items<Group>, LimitFault>
    ensures value { GivesUnless LimitFault.Memory result
        (required wrapped (apply_in limits.now) (codes "apply") fields.old) }
    ensures rest { fields.new ≡ without_member (codes "apply") fields.old }
{
    let value = fields.need(alloc, "apply")?;
    read_items(alloc, value, "apply", &GroupReader { limits })
}

fn need_classifier(
    alloc: Global,
    fields: &mut Fields,
    classifiers: &Entries<Classifier>,
) -> Result<usize, LimitFault>
    ensures value { GivesUnless LimitFault.Memory result
        (required wrapped (place_in classifiers.now) (codes "classifier") fields.old) }
    ensures rest { fields.new ≡ without_member (codes "classifier") fields.old }
{
    let value = fields.need(alloc, "classifier")?;
    read_place(alloc, value, "classifier", classifiers)
}

/// All but the description.
fn take_application(
    alloc: Global,
    fields: &mut Fields,
    classifiers: &Entries<Classifier>,
    limits: &Entries<Limit>,
) -> Result<Application, LimitFault>
    ensures value { GivesUnless LimitFault.Memory result (told_of classifiers.now limits.now fields.old) }
    ensures rest { OnOk result (fields.new ≡ after_told fields.old) }
{
    let classifier = need_classifier(alloc, fields, classifiers)?;
    let apply = need_apply(alloc, fields, limits)?;
    let invert = take_flag(alloc, fields, "invert")?;
    let stop_on_failure = take_flag(alloc, fields, "stop-on-failure")?;
    Ok(Application {
        classifier,
        apply,
        invert,
        stop_on_failure,
    })
}

#[derive(Clone, Copy)]
struct ApplicationReader<'a> {
    classifiers: &'a Entries<Classifier>,
    limits: &'a Entries<Limit>,
}

impl<'a> ReadItem for ApplicationReader<'a> {
    type Item = Application;

    ghost use Rattle.limit_apply.specs.ReadApplications.{application_of};

    ghost item = { λ r d. application_of r.classifiers.now r.limits.now d };

    fn read_item(&self, alloc: Global, value: Value) -> Result<Application, LimitFault> {
        let mut fields = Fields::open(alloc, value, "applications")?;
        let application = take_application(alloc, &mut fields, self.classifiers, self.limits)?;
        end_described(alloc, fields)?;
        Ok(application)
    }
}

/// The applications that the member `applications` is: a list that isn't empty.
pub(crate) fn read_applications(
    alloc: Global,
    value: Value,
    classifiers: &Entries<Classifier>,
    limits: &Entries<Limit>,
) -> Result<Items<Application>, LimitFault>
    ensures { GivesUnless LimitFault.Memory result
        (applications_in classifiers.now limits.now (codes "applications") (view value)) }
{
    let reader = ApplicationReader {
        classifiers,
        limits,
    };
    read_items(alloc, value, "applications", &reader)
}

fn read_ceiling(alloc: Global, value: Value, name: &str) -> Result<i16, LimitFault>
    ensures value { GivesUnless LimitFault.Memory result (ceiling_in name.now (view value)) }
    ensures bound { IfOk result IsPriority }
{
    let ceiling = read_whole(alloc, value, name, name, -1_000, 1_000)?;
    Ok(ceiling as i16)
}

fn need_ceiling(alloc: Global, fields: &mut Fields) -> Result<i16, LimitFault>
    ensures value { GivesUnless LimitFault.Memory result (required wrapped ceiling_in (codes "ceiling") fields.old) }
    ensures bound { IfOk result IsPriority }
    ensures rest { fields.new ≡ without_member (codes "ceiling") fields.old }
{
    let value = fields.need(alloc, "ceiling")?;
    read_ceiling(alloc, value, "ceiling")
}

/// All but the description.
#[tactic(auto, using(crate::proofs::SignedLemmas::ceiling_kept))]
fn take_entry(
    alloc: Global,
    fields: &mut Fields,
    classifiers: &Entries<Classifier>,
) -> Result<Ceiling, LimitFault>
    ensures value { GivesUnless LimitFault.Memory result (ceiling_of classifiers.now fields.old) }
    ensures rest { OnOk result (fields.new ≡ without_member (codes "ceiling") (without_member (codes "classifier") fields.old)) }
{
    let classifier = need_classifier(alloc, fields, classifiers)?;
    let ceiling = need_ceiling(alloc, fields)?;
    Ok(Ceiling {
        classifier,
        ceiling,
    })
}

#[derive(Clone, Copy)]
struct CeilingReader<'a> {
    classifiers: &'a Entries<Classifier>,
}

impl<'a> ReadItem for CeilingReader<'a> {
    type Item = Ceiling;

    ghost use Rattle.limit_apply.specs.ReadApplications.{entry_of};

    ghost item = { λ r d. entry_of r.classifiers.now d };

    fn read_item(&self, alloc: Global, value: Value) -> Result<Ceiling, LimitFault> {
        let mut fields = Fields::open(alloc, value, "classifiers")?;
        let entry = take_entry(alloc, &mut fields, self.classifiers)?;
        end_described(alloc, fields)?;
        Ok(entry)
    }
}

fn take_default(alloc: Global, fields: &mut Fields) -> Result<i16, LimitFault>
    ensures value { GivesUnless LimitFault.Memory result (default_of fields.old) }
    ensures bound { IfOk result IsPriority }
    ensures rest { fields.new ≡ without_member (codes "default") fields.old }
{
    match fields.take("default") {
        None => Ok(0),
        Some(value) => read_ceiling(alloc, value, "default"),
    }
}

fn take_ceilings(
    alloc: Global,
    fields: &mut Fields,
    classifiers: &Entries<Classifier>,
) -> Result<Items<Ceiling>, LimitFault>
    ensures value { GivesUnless LimitFault.Memory result (ceilings_of classifiers.now fields.old) }
    ensures rest { fields.new ≡ without_member (codes "classifiers") fields.old }
{
    match fields.take("classifiers") {
        None => Ok(Items::new(alloc)),
        Some(value) => {
            let values = read_list(alloc, value, "classifiers")?;
            read_each_item(alloc, values, &CeilingReader { classifiers })
        }
    }
}

/// The priorities that the member `priorities` is, or none of them.
#[tactic(auto, using(crate::proofs::SignedLemmas::ceiling_kept))]
pub(crate) fn read_priorities(
    alloc: Global,
    value: Option<Value>,
    classifiers: &Entries<Classifier>,
) -> Result<Priorities, LimitFault>
    ensures { GivesUnless LimitFault.Memory result (priorities_of classifiers.now (option_map view value)) }
{
    let Some(value) = value else {
        return Ok(Priorities {
            default: 0,
            ceilings: Items::new(alloc),
        });
    };
    let mut fields = Fields::open(alloc, value, "priorities")?;
    let default = take_default(alloc, &mut fields)?;
    let ceilings = take_ceilings(alloc, &mut fields, classifiers)?;
    end_described(alloc, fields)?;
    Ok(Priorities { default, ceilings })
}
