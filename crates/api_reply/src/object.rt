//! Objects that are made member by member.
ghost use Rattle.std.specs.Prelude.{◌≡◌, IfOk};
ghost use Rattle.serde_json.specs.Data.{boolean, no_members, number, object, put as with_member, string};
ghost use Rattle.serde_json.specs.Find.{of_integer};
ghost use Rattle.serde_json.specs.View.{view};
ghost use Rattle.task_spec.specs.WriteTask.{count_data};
ghost use Rattle.api_reply.specs.Shown.{moment_data, second_data};

use crate::shown::{shown_moment, shown_second};
use ps_time::memory::Memory;
use ps_time::moment::Moment;
use serde_json::{Map, Value, put};
use std::alloc::Global;
use std::marker::Model;

/// An object that is being made. Its members stand in the order of the bytes of their names, in whichever order they
/// come.
#[derive(Drop)]
pub struct Object {
    alloc: Global,
    members: Map<String, Value>,
}

impl Model for Object {
    ghost use Rattle.serde_json.specs.Data.{Members};
    ghost use Rattle.serde_json.specs.View.{members_view};
    ghost use Rattle.ps_json.specs.Coding.{coded_members};

    ghost Value = { Members };

    ghost coded = { coded_members };

    ghost view = { λ o. members_view o.members.entries };
}

impl Object {
    ghost use Rattle.serde_json.specs.View.{members_view};

    /// The empty object.
    pub fn new(alloc: Global) -> Object
        ensures { result ≡ no_members }
    {
        Object {
            alloc,
            members: Map::new(alloc),
        }
    }

    /// The object with these members.
    pub fn of_members(alloc: Global, members: Map<String, Value>) -> Object
        ensures { result ≡ members_view members.entries }
    {
        Object { alloc, members }
    }

    /// With one member more.
    pub fn with(mut self, name: &str, value: Value) -> Result<Object, Memory>
        ensures { IfOk result (λ made. made ≡ with_member name.now (view value) self) }
    {
        put(&mut self.members, self.alloc, name, value)?;
        Ok(self)
    }

    /// With a text.
    pub fn text(self, name: &str, text: &str) -> Result<Object, Memory>
        ensures { IfOk result (λ made. made ≡ with_member name.now (string text.now) self) }
    {
        let value = Value::try_from_str(self.alloc, text)?;
        self.with(name, value)
    }

    /// With a count.
    pub fn count(self, name: &str, count: u64) -> Result<Object, Memory>
        ensures { IfOk result (λ made. made ≡ with_member name.now (count_data count) self) }
    {
        self.with(name, Value::from(count))
    }

    /// With a number that may be negative.
    pub fn integer(self, name: &str, integer: i16) -> Result<Object, Memory>
        ensures { IfOk result (λ made. made ≡ with_member name.now (number (of_integer integer)) self) }
    {
        self.with(name, Value::from(integer))
    }

    /// With `true` or `false`.
    pub fn flag(self, name: &str, flag: bool) -> Result<Object, Memory>
        ensures { IfOk result (λ made. made ≡ with_member name.now (boolean flag) self) }
    {
        self.with(name, Value::from(flag))
    }

    /// With a moment as a text.
    pub fn moment(self, name: &str, moment: Moment) -> Result<Object, Memory>
        ensures { IfOk result (λ made. made ≡ with_member name.now (moment_data moment) self) }
    {
        let value = shown_moment(self.alloc, moment)?;
        self.with(name, value)
    }

    /// With a moment as a number.
    pub fn second(self, name: &str, moment: Moment) -> Result<Object, Memory>
        ensures { IfOk result (λ made. made ≡ with_member name.now (second_data moment) self) }
    {
        self.with(name, shown_second(moment))
    }

    /// The object as a tree.
    pub fn into_value(self) -> Value
        ensures { view result ≡ object self }
    {
        Value::Object(self.members)
    }
}
