//! The reader of archives.
ghost use Rattle.std.specs.Prelude.{◌≡◌, ◌≤◌, ℕ, List, [], true, Ok, Contains, length, map, option_and_then, unwrap_or, All, IfOk, codes};
ghost use Rattle.std.specs.Cmp.Lexicographic.{slice_cmp};
ghost use Rattle.std.specs.Ordering.{nat_cmp};
ghost use Rattle.ps_time.specs.Sorted.{IsAscending};
ghost use Rattle.serde_json.specs.Data.{object};
ghost use Rattle.serde_json.specs.Find.{get, as_number, as_u64};
ghost use Rattle.serde_json.specs.View.{view};
ghost use Rattle.ps_json.specs.Each.{read_each};
ghost use Rattle.ps_json.specs.Answer.{GivesUnless};
ghost use Rattle.ps_json.specs.Fields.{without_member};
ghost use Rattle.ps_json.specs.Tree.{tree_of};
ghost use Rattle.archive_retry.specs.Bounds.{IsPolicy};
ghost use Rattle.ps_json.specs.Member.{optional};
ghost use Rattle.task_spec.specs.Bounds.{FitsArchiver, IsArchive};
ghost use Rattle.task_spec.specs.declared.task.Archive.{Archive};
ghost use Rattle.task_spec.specs.ReadArchive.{is_archiver, archivers_by_name, fails_by, archiver_in, fail_of, after_fail, settings_members, settings_text, policy_in, data_members, data_in, plain, archive_of, archives_in};

use crate::fault::TaskFault;
use crate::task::Archive;
use archive_retry::policy::Policy;
use archive_retry::read_policy::read_policy;
use ps_json::fault::JsonFault;
use ps_json::fields::Fields;
use ps_json::kinds::{read_count, read_list, read_text};
use ps_json::tree::{read_tree, write_text};
use ps_time::items::Items;
use ps_time::memory::Memory;
use ps_time::text::Text;
use serde_json::{Value, json};
use std::alloc::Global;

static ARCHIVERS: [&str; 2] = ["bitbucket", "failer"];

/// The names of all archivers, ascending.
pub fn archivers() -> &'static [&'static str]
    ensures list { map (λ name. name.now) result.now ≡ archivers_by_name }
    ensures every { (name : List ℕ) → is_archiver name ≡ true → Contains archivers_by_name name }
    ensures ascending { IsAscending (slice_cmp nat_cmp) (λ name. name) archivers_by_name }
{
    &ARCHIVERS
}

fn is_archiver(name: &str) -> bool
    ensures { result ≡ is_archiver name.now }
{
    name == "bitbucket" || name == "failer"
}

fn read_archiver(alloc: Global, value: Value) -> Result<Text, TaskFault>
    ensures value { GivesUnless TaskFault.Memory result (archiver_in (codes "archiver") (view value)) }
    ensures known { IfOk result (λ name. is_archiver name ≡ true) }
{
    let name = Text::from_string(read_text(alloc, value, "archiver")?);
    if !is_archiver(name.as_str()) {
        return Err(TaskFault::UnknownArchiver(name));
    }
    Ok(name)
}

/// How many attempts fail before one succeeds, which only `failer` is told.
fn take_fail(alloc: Global, fields: &mut Fields, archiver: &str) -> Result<Option<u64>, TaskFault>
    ensures value { GivesUnless TaskFault.Memory result (fail_of archiver.now (codes "fail") fields.old) }
    ensures fits { IfOk result (FitsArchiver archiver.now) }
    ensures rest { fields.new ≡ after_fail archiver.now fields.old }
{
    if archiver != "failer" {
        return Ok(None);
    }
    match fields.take("fail") {
        None => Ok(None),
        Some(value) => Ok(Some(read_count(alloc, value, "fail", 0, 1_000)?)),
    }
}

fn settings_tree(alloc: Global, fail: Option<u64>) -> Result<Value, Memory>
    ensures { IfOk result (λ value. view value ≡ object (settings_members fail)) }
{
    match fail {
        None => Ok(json!(in alloc; {})?),
        Some(count) => Ok(json!(in alloc; {"fail": count})?),
    }
}

fn settings_text(alloc: Global, fail: Option<u64>) -> Result<Text, Memory>
    ensures text { IfOk result (λ text. text ≡ settings_text fail) }
    ensures reads { IfOk result (λ text. tree_of text ≡ Ok (object (settings_members fail))) }
{
    let value = settings_tree(alloc, fail)?;
    let text = write_text(alloc, &value)?;
    Ok(text)
}

fn take_policy(alloc: Global, fields: &mut Fields) -> Result<Policy, TaskFault>
    ensures value { GivesUnless TaskFault.Memory result
        (optional (record { entries = [] }) policy_in (codes "retry-policy") fields.old) }
    ensures bounds { IfOk result IsPolicy }
    ensures rest { fields.new ≡ without_member (codes "retry-policy") fields.old }
{
    match fields.take("retry-policy") {
        None => Ok(Policy {
            entries: Items::new(alloc),
        }),
        Some(value) => Ok(read_policy(alloc, value)?),
    }
}

fn read_members(alloc: Global, mut fields: Fields, archiver: Text) -> Result<Archive, TaskFault>
    requires { is_archiver archiver ≡ true }
    ensures value { GivesUnless TaskFault.Memory result (data_members archiver fields) }
    ensures bounds { IfOk result IsArchive }
{
    let fail = take_fail(alloc, &mut fields, archiver.as_str())?;
    let policy = take_policy(alloc, &mut fields)?;
    fields.end(alloc)?;
    let settings = settings_text(alloc, fail)?;
    Ok(Archive {
        archiver,
        settings,
        policy,
    })
}

fn plain_archive(alloc: Global, archiver: Text) -> Result<Archive, TaskFault>
    requires { is_archiver archiver ≡ true }
    ensures value { GivesUnless TaskFault.Memory result (Ok (plain archiver)) }
    ensures bounds { IfOk result IsArchive }
{
    let settings = settings_text(alloc, None)?;
    Ok(Archive {
        archiver,
        settings,
        policy: Policy {
            entries: Items::new(alloc),
        },
    })
}

fn take_data(alloc: Global, fields: &mut Fields, archiver: Text) -> Result<Archive, TaskFault>
    requires { is_archiver archiver ≡ true }
    ensures value { GivesUnless TaskFault.Memory result
        (optional (plain archiver) (data_in archiver) (codes "data") fields.old) }
    ensures bounds { IfOk result IsArchive }
    ensures rest { fields.new ≡ without_member (codes "data") fields.old }
{
    match fields.take("data") {
        None => plain_archive(alloc, archiver),
        Some(value) => {
            let members = Fields::open(alloc, value, "data")?;
            read_members(alloc, members, archiver)
        }
    }
}

fn read_archive(alloc: Global, value: Value) -> Result<Archive, TaskFault>
    ensures value { GivesUnless TaskFault.Memory result (archive_of (view value)) }
    ensures bounds { IfOk result IsArchive }
{
    let mut fields = Fields::open(alloc, value, "archives")?;
    let archiver = read_archiver(alloc, fields.need(alloc, "archiver")?)?;
    let archive = take_data(alloc, &mut fields, archiver)?;
    fields.end(alloc)?;
    Ok(archive)
}

fn read_all(alloc: Global, values: Vec<Value>) -> Result<Items<Archive>, TaskFault>
    ensures value { GivesUnless TaskFault.Memory result (read_each archive_of (map view values.items)) }
    ensures bounds { IfOk result (λ archives. All IsArchive archives) }
    ensures count { IfOk result (λ archives. length archives ≡ length values.items) }
{
    let mut archives = Items::new(alloc);
    for value in values {
        archives.push(read_archive(alloc, value)?)?;
    }
    Ok(archives)
}

/// The archives that a list is. Its own kind and length come first, then its entries one after another.
pub fn read_archives(alloc: Global, value: Value) -> Result<Items<Archive>, TaskFault>
    ensures value { GivesUnless TaskFault.Memory result (archives_in (codes "archives") (view value)) }
    ensures bounds { IfOk result (λ archives. All IsArchive archives) }
    ensures count { IfOk result (λ archives. length archives ≤ 8) }
{
    let values = read_list(alloc, value, "archives")?;
    if values.len() > 8 {
        return Err(JsonFault::wrong_kind(alloc, "archives").into());
    }
    read_all(alloc, values)
}

/// How many attempts of `failer` fail before one succeeds, by an archive's settings: 0 where these are no
/// tree, or have no such number.
#[tactic(auto, using(crate::proofs::ArchiveLemmas::fails_given_by))]
pub fn fails_by(alloc: Global, settings: &str) -> Result<u64, Memory>
    ensures value { IfOk result (λ count. count ≡ fails_by settings.now) }
    ensures given { (archive : Archive) (is : IsArchive archive) → archive.settings ≡ settings.now
        → fails_by settings.now ≡ unwrap_or is.fail 0 }
{
    match read_tree(alloc, settings.as_bytes()) {
        Ok(value) => Ok(fail_member(&value)),
        Err(JsonFault::Memory) => Err(Memory),
        Err(_) => Ok(0),
    }
}

fn fail_member(value: &Value) -> u64
    ensures { result ≡ unwrap_or (option_and_then as_u64 (option_and_then as_number (get (codes "fail") (view value.now)))) 0 }
{
    match value.get("fail") {
        Some(count) => count.as_u64().unwrap_or(0),
        None => 0,
    }
}
