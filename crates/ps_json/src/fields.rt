//! The members of an object, each taken once.
ghost use Rattle.std.specs.Prelude.{◌≡◌, ◌<◌, option_map, IfSome, OnOk};
ghost use Rattle.serde_json.specs.Find.{get_member};
ghost use Rattle.serde_json.specs.View.{members_view, view};
ghost use Rattle.ps_json.specs.Answer.{GivesUnless, seen_as};
ghost use Rattle.ps_json.specs.Fields.{without_member, need_of, end_of, is_comment, least_unknown, next_of, behind_next, members_count, with_plain};
ghost use Rattle.ps_json.specs.Kinds.{members_of};

use crate::fault::JsonFault;
use ps_time::memory::Memory;
use ps_time::text::Text;
use serde_json::{Map, Value, put};
use std::alloc::Global;
use std::marker::Model;

/// The members of an object that are left to be taken.
#[derive(Drop)]
pub struct Fields {
    members: Map<String, Value>,
}

impl Model for Fields {
    ghost use Rattle.serde_json.specs.Data.{Members};
    ghost use Rattle.serde_json.specs.View.{members_view};
    ghost use Rattle.ps_json.specs.Coding.{coded_members};

    ghost Value = { Members };

    ghost coded = { coded_members };

    ghost view = { λ f. members_view f.members.entries };
}

impl Fields {
    /// Opens the object that is the value of the member `name`.
    pub fn open(alloc: Global, value: Value, name: &str) -> Result<Fields, JsonFault>
        ensures { GivesUnless JsonFault.Memory result (members_of name.now (view value)) }
    {
        match value {
            Value::Object(members) => Ok(Fields { members }),
            _ => Err(JsonFault::wrong_kind(alloc, name)),
        }
    }

    /// Takes a member out, if it is left.
    pub fn take(&mut self, name: &str) -> Option<Value>
        ensures value { option_map view result ≡ get_member name.now self.old }
        ensures rest { self.new ≡ without_member name.now self.old }
    {
        self.members.remove(name)
    }

    /// Takes a member out that has to be there.
    pub fn need(&mut self, alloc: Global, name: &str) -> Result<Value, JsonFault>
        ensures value { GivesUnless JsonFault.Memory (seen_as view result) (need_of name.now self.old) }
        ensures rest { self.new ≡ without_member name.now self.old }
    {
        match self.take(name) {
            Some(value) => Ok(value),
            None => Err(JsonFault::missing(alloc, name)),
        }
    }

    /// Takes the member of the least name that is no comment, as where the names of an object are data. The
    /// comments before it go with it; where comments alone are left, all of them go.
    pub fn next(&mut self) -> Option<(Text, Value)>
        ensures member { option_map (λ m. (m.0, view m.1)) result ≡ next_of self.old }
        ensures least { option_map (λ m. m.0) result ≡ least_unknown self.old }
        ensures rest { self.new ≡ behind_next self.old }
        ensures fewer { IfSome result (λ _. members_count self.new < members_count self.old) }
    {
        while let Some((name, value)) = self.members.pop_first() {
            if !is_comment(name.as_str()) {
                return Some((Text::from_string(name), value));
            }
        }
        None
    }

    /// Nothing may be left but comments, whose names begin with `#`.
    pub fn end(self, alloc: Global) -> Result<(), JsonFault>
        ensures { GivesUnless JsonFault.Memory result (end_of self) }
    {
        for (name, _) in self.members.iter() {
            let name = name.as_str();
            if !is_comment(name) {
                return Err(JsonFault::unknown(alloc, name));
            }
        }
        Ok(())
    }
}

/// Whether a member of this name is a comment, which begins with `#`.
pub fn is_comment(name: &str) -> bool
    ensures { result ≡ is_comment name.now }
{
    matches!(name.as_bytes(), [b'#', ..])
}

/// Puts a member to the others, unless it is a comment.
pub fn put_plain(
    alloc: Global,
    members: &mut Map<String, Value>,
    name: &str,
    value: Value,
) -> Result<(), Memory>
    ensures { OnOk result (members_view members.new.entries ≡ with_plain name.now (view value) (members_view members.old.entries)) }
{
    if is_comment(name) {
        return Ok(());
    }
    put(members, alloc, name, value)?;
    Ok(())
}
