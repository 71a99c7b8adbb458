//! The reader of tasks.
ghost use Rattle.std.specs.Prelude.{◌≡◌, ◌≤◌, ◌≤ℤ◌, ℤ, pos, negsuc, [], true, None, length, map, All, IfOk, IfSome, codes};
ghost use Rattle.std.specs.List.{list_all};
ghost use Rattle.std.specs.Option.{ForSome};
ghost use Rattle.serde_json.specs.View.{view};
ghost use Rattle.ps_json.specs.Each.{read_each};
ghost use Rattle.ps_json.specs.Answer.{GivesUnless};
ghost use Rattle.ps_json.specs.Fields.{without_member};
ghost use Rattle.ps_time.specs.declared.moment.TheConstants.{MAX_MOMENT};
ghost use Rattle.ps_time.specs.Name.{is_name};
ghost use Rattle.plugin_core.specs.Bounds.{IsTest};
ghost use Rattle.plugin_core.specs.Participants.{participants, HasParticipants};
ghost use Rattle.ps_json.specs.Member.{optional};
ghost use Rattle.task_spec.specs.Bounds.{IsArchive, IsReference, IsRest, IsTask};
ghost use Rattle.task_spec.specs.ReadArchive.{archives_in};
ghost use Rattle.task_spec.specs.ReadSchedule.{schedule_in};
ghost use Rattle.task_spec.specs.ReadTask.{schema, leads, test_in, is_tool, tool_name_in, tool_in, tools_in, reference_in, priority_in, from_now, rest_of, task_of};

use crate::archive::read_archives;
use crate::fault::TaskFault;
use crate::schedule::read_schedule;
use crate::task::{Archive, Task};
use plugin_core::participants::law_participants;
use plugin_core::read_test::read_test;
use plugin_core::test_spec::TestSpec;
use plugin_tool::choice::read_tool;
use ps_json::fault::JsonFault;
use ps_json::fields::Fields;
use ps_json::kinds::{read_count, read_list, read_text};
use ps_json::shape::{is_deeper, is_whole};
use ps_json::tree::write_text;
use ps_time::items::Items;
use ps_time::moment::Moment;
use ps_time::text::Text;
use schedule_rule::rule::Rule;
use serde_json::Value;
use std::alloc::Global;

/// What a task has besides its test.
#[derive(Drop)]
pub struct Rest {
    /// The names of the wanted tools, at most 8.
    pub tools: Items<Text>,
    /// When the runs may start.
    pub rule: Rule,
    /// At most 8.
    pub archives: Items<Archive>,
    /// The compact text of a tree, at most 65,536 bytes.
    pub reference: Option<Text>,
    /// From -1000 to 1000.
    pub priority: i16,
}

/// Whether each is the name of a tool.
pub fn all_tools(names: &[Text]) -> bool
    ensures { result ≡ list_all is_tool names.now }
{
    for name in names {
        if read_tool(name.as_str()).is_none() {
            return false;
        }
    }
    true
}

fn take_schema(alloc: Global, fields: &mut Fields) -> Result<u64, TaskFault>
    ensures value { GivesUnless TaskFault.Memory result (optional 1 schema (codes "schema") fields.old) }
    ensures rest { fields.new ≡ without_member (codes "schema") fields.old }
{
    match fields.take("schema") {
        None => Ok(1),
        Some(value) => Ok(read_count(alloc, value, "schema", 1, 5)?),
    }
}

/// Whether the lead is the first of the test's hosts, where it has some.
fn leads(lead: &str, test: &TestSpec) -> bool
    ensures { result ≡ leads lead.now test.now }
{
    match test {
        TestSpec::Idlemany { hosts, .. } => match hosts.as_slice() {
            [] => false,
            [first, ..] => first.as_str() == lead,
        },
        _ => true,
    }
}

fn read_test_in(alloc: Global, value: Value, lead: &str) -> Result<TestSpec, TaskFault>
    ensures value { GivesUnless TaskFault.Memory result (test_in lead.now (codes "test") (view value)) }
    ensures bounds { IfOk result IsTest }
    ensures leads { IfOk result (λ test. leads lead.now test ≡ true) }
{
    let test = read_test(alloc, value)?;
    if !leads(lead, &test) {
        return Err(TaskFault::bad_spec(alloc, "hosts"));
    }
    Ok(test)
}

fn read_tool_name(alloc: Global, value: Value, name: &str) -> Result<Text, TaskFault>
    ensures value { GivesUnless TaskFault.Memory result (tool_name_in name.now (view value)) }
    ensures known { IfOk result (λ tool. is_tool tool ≡ true) }
{
    let tool = Text::from_string(read_text(alloc, value, name)?);
    if read_tool(tool.as_str()).is_none() {
        return Err(TaskFault::UnknownTool(tool));
    }
    Ok(tool)
}

fn take_tool(alloc: Global, fields: &mut Fields) -> Result<Items<Text>, TaskFault>
    ensures value { GivesUnless TaskFault.Memory result (optional [] tool_in (codes "tool") fields.old) }
    ensures known { IfOk result (λ tools. list_all is_tool tools ≡ true) }
    ensures count { IfOk result (λ tools. length tools ≤ 1) }
    ensures rest { fields.new ≡ without_member (codes "tool") fields.old }
{
    let mut tools = Items::new(alloc);
    if let Some(value) = fields.take("tool") {
        tools.push(read_tool_name(alloc, value, "tool")?)?;
    }
    Ok(tools)
}

fn read_names(alloc: Global, values: Vec<Value>) -> Result<Items<Text>, TaskFault>
    ensures value { GivesUnless TaskFault.Memory result (read_each (tool_name_in (codes "tools")) (map view values.items)) }
    ensures known { IfOk result (λ tools. list_all is_tool tools ≡ true) }
    ensures count { IfOk result (λ tools. length tools ≡ length values.items) }
{
    let mut tools = Items::new(alloc);
    for value in values {
        tools.push(read_tool_name(alloc, value, "tools")?)?;
    }
    Ok(tools)
}

fn read_tools(alloc: Global, value: Value) -> Result<Items<Text>, TaskFault>
    ensures value { GivesUnless TaskFault.Memory result (tools_in [] (codes "tools") (view value)) }
    ensures known { IfOk result (λ tools. list_all is_tool tools ≡ true) }
    ensures count { IfOk result (λ tools. length tools ≤ 8) }
{
    let values = read_list(alloc, value, "tools")?;
    if values.is_empty() || values.len() > 8 {
        return Err(JsonFault::wrong_kind(alloc, "tools").into());
    }
    read_names(alloc, values)
}

/// The wanted tools, where `tool` gave these.
fn take_tools(
    alloc: Global,
    fields: &mut Fields,
    tool: Items<Text>,
) -> Result<Items<Text>, TaskFault>
    requires known { list_all is_tool tool ≡ true }
    requires count { length tool ≤ 1 }
    ensures value { GivesUnless TaskFault.Memory result (optional tool (tools_in tool) (codes "tools") fields.old) }
    ensures known { IfOk result (λ tools. list_all is_tool tools ≡ true) }
    ensures count { IfOk result (λ tools. length tools ≤ 8) }
    ensures rest { fields.new ≡ without_member (codes "tools") fields.old }
{
    let Some(value) = fields.take("tools") else {
        return Ok(tool);
    };
    if tool.len() > 0 {
        return Err(JsonFault::wrong_kind(alloc, "tools").into());
    }
    read_tools(alloc, value)
}

fn take_schedule(alloc: Global, fields: &mut Fields, now: Moment) -> Result<Rule, TaskFault>
    requires { now ≤ MAX_MOMENT }
    ensures value { GivesUnless TaskFault.Memory result
        (optional (from_now now) (schedule_in now) (codes "schedule") fields.old) }
    ensures runs { IfOk result (λ rule. ForSome rule.max_runs (λ n. n ≤ 4294967295)) }
    ensures rest { fields.new ≡ without_member (codes "schedule") fields.old }
{
    match fields.take("schedule") {
        None => Ok(Rule {
            anchor: now,
            slip: 300,
            repeat: None,
            until: None,
            max_runs: None,
        }),
        Some(value) => read_schedule(alloc, value, now),
    }
}

fn take_archives(alloc: Global, fields: &mut Fields) -> Result<Items<Archive>, TaskFault>
    ensures value { GivesUnless TaskFault.Memory result (optional [] archives_in (codes "archives") fields.old) }
    ensures bounds { IfOk result (λ archives. All IsArchive archives) }
    ensures count { IfOk result (λ archives. length archives ≤ 8) }
    ensures rest { fields.new ≡ without_member (codes "archives") fields.old }
{
    match fields.take("archives") {
        None => Ok(Items::new(alloc)),
        Some(value) => read_archives(alloc, value),
    }
}

/// A tree that is kept as its compact text: of at most 63 levels, with whole numbers alone, and at most
/// 65,536 bytes long; null is none.
fn read_reference(alloc: Global, value: &Value) -> Result<Option<Text>, TaskFault>
    ensures value { GivesUnless TaskFault.Memory result (reference_in (codes "reference") (view value.now)) }
    ensures bounds { IfOk result (λ reference. IfSome reference IsReference) }
{
    if value.is_null() {
        return Ok(None);
    }
    if !is_whole(value) || is_deeper(value, 63) {
        return Err(TaskFault::bad_spec(alloc, "reference"));
    }
    let text = write_text(alloc, value)?;
    if text.len() > 65_536 {
        return Err(TaskFault::bad_spec(alloc, "reference"));
    }
    Ok(Some(text))
}

fn take_reference(alloc: Global, fields: &mut Fields) -> Result<Option<Text>, TaskFault>
    ensures value { GivesUnless TaskFault.Memory result
        (optional None reference_in (codes "reference") fields.old) }
    ensures bounds { IfOk result (λ reference. IfSome reference IsReference) }
    ensures rest { fields.new ≡ without_member (codes "reference") fields.old }
{
    match fields.take("reference") {
        None => Ok(None),
        Some(value) => read_reference(alloc, &value),
    }
}

fn read_priority(value: &Value) -> Result<i16, TaskFault>
    ensures value { result ≡ priority_in (codes "priority") (view value.now) }
    ensures bound { IfOk result (λ priority. (negsuc 999 ≤ℤ priority) × (priority ≤ℤ pos 1000)) }
{
    match value.as_i64() {
        Some(priority) if -1_000 <= priority && priority <= 1_000 => Ok(priority as i16),
        _ => Err(TaskFault::BadPriority),
    }
}

fn take_priority(fields: &mut Fields) -> Result<i16, TaskFault>
    ensures value { result ≡ optional (pos 0) priority_in (codes "priority") fields.old }
    ensures bound { IfOk result (λ priority. (negsuc 999 ≤ℤ priority) × (priority ≤ℤ pos 1000)) }
    ensures rest { fields.new ≡ without_member (codes "priority") fields.old }
{
    match fields.take("priority") {
        None => Ok(0),
        Some(value) => read_priority(&value),
    }
}

fn read_rest(alloc: Global, mut fields: Fields, now: Moment) -> Result<Rest, TaskFault>
    requires { now ≤ MAX_MOMENT }
    ensures value { GivesUnless TaskFault.Memory result (rest_of now fields) }
    ensures bounds { IfOk result IsRest }
{
    let tool = take_tool(alloc, &mut fields)?;
    let tools = take_tools(alloc, &mut fields, tool)?;
    let rule = take_schedule(alloc, &mut fields, now)?;
    let archives = take_archives(alloc, &mut fields)?;
    let reference = take_reference(alloc, &mut fields)?;
    let priority = take_priority(&mut fields)?;
    fields.end(alloc)?;
    Ok(Rest {
        tools,
        rule,
        archives,
        reference,
        priority,
    })
}

impl Task {
    /// The task that a tree is, where `now` is the moment of posting and `lead` the name of the host that
    /// it is posted to. Refusals come in the order in which the tables of `docs/specification/tasks.md`
    /// name the members.
    pub fn read(alloc: Global, value: Value, now: Moment, lead: &str) -> Result<Task, TaskFault>
        requires { now ≤ MAX_MOMENT }
        ensures value { GivesUnless TaskFault.Memory result (task_of now lead.now (view value)) }
        ensures bounds { IfOk result (IsTask lead.now) }
        ensures participants { is_name lead.now ≡ true
            → IfOk result (λ task. HasParticipants (participants task.test lead.now)) }
    {
        law_participants();
        let mut fields = Fields::open(alloc, value, "task")?;
        take_schema(alloc, &mut fields)?;
        let test = read_test_in(alloc, fields.need(alloc, "test")?, lead)?;
        let rest = read_rest(alloc, fields, now)?;
        Ok(Task {
            test,
            tools: rest.tools,
            rule: rest.rule,
            archives: rest.archives,
            reference: rest.reference,
            priority: rest.priority,
        })
    }
}
