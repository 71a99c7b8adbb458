//! What the bodies of answers of peers tell.
ghost use Rattle.std.specs.Prelude.{◌≡◌, ◌≤◌, All, None, true, IfOk, IfSome, OnOk, codes, length, map};
ghost use Rattle.serde_json.specs.View.{view};
ghost use Rattle.ps_json.specs.Answer.{GivesUnless};
ghost use Rattle.ps_json.specs.Each.{read_each};
ghost use Rattle.ps_json.specs.Fields.{without_member};
ghost use Rattle.ps_json.specs.Member.{required};
ghost use Rattle.ps_time.specs.declared.moment.TheConstants.{MAX_MOMENT};
ghost use Rattle.task_spec.specs.Fault.{wrapped};
ghost use Rattle.run_states.specs.LawfulRow.{IsWindow};
ghost use Rattle.host_model.specs.Conditions.{IsAnswer, IsFreeHeard, IsResultHeard};
ghost use Rattle.host_model.specs.InputLength.{heard_texts, most_input_texts};
ghost use Rattle.host_model.specs.RecordLength.{answer_bytes};
ghost use Rattle.api_body.specs.Bodies.{ended, text_at};
ghost use Rattle.api_answer.specs.Told.{IsTier, moment_told, flag_in, flag_told, moment_of, window_from, window_of, window_in, windows_in, are_tools, tools_in, first_in, second_in, tiers_in, after_tiers, free_told, result_in, state_named, state_in, outcome_by, outcome_told};

use api_body::bodies::{take_moment, take_text};
use host_model::order::PeerAnswer;
use plugin_core::read_test::all_differ;
use ps_json::fault::JsonFault;
use ps_json::fields::Fields;
use ps_json::kinds::{read_boolean, read_list, read_text};
use ps_json::shape::{is_deeper, is_whole};
use ps_json::tree::write_text;
use ps_time::interval::Window;
use ps_time::items::Items;
use ps_time::moment::{MAX_MOMENT, Moment};
use ps_time::text::Text;
use ps_time::tiers::Tiers;
use run_states::answer::FreeAnswer;
use run_states::state::State;
use serde_json::Value;
use std::alloc::Global;
use task_spec::fault::TaskFault;
use task_spec::read_task::all_tools;

/// The most windows in a tier of an answer.
const MOST_WINDOWS: usize = 128;

/// How many tools there are.
const ALL_TOOLS: usize = 4;

/// The most levels of a result.
const MOST_LEVELS: usize = 60;

/// The most bytes of a result.
const MOST_RESULT: usize = 65_536;

/// The moment in an object that has nothing else.
pub fn read_told_moment(alloc: Global, value: Value, name: &str) -> Result<Moment, TaskFault>
    ensures value { GivesUnless TaskFault.Memory result (moment_told name.now (view value)) }
    ensures bound { IfOk result (λ moment. moment ≤ MAX_MOMENT) }
{
    let mut fields = Fields::open(alloc, value, "answer")?;
    let moment = take_moment(alloc, &mut fields, name)?;
    fields.end(alloc)?;
    Ok(moment)
}

fn take_flag(alloc: Global, fields: &mut Fields, name: &str) -> Result<bool, TaskFault>
    ensures value { GivesUnless TaskFault.Memory result (required wrapped flag_in name.now fields.old) }
    ensures rest { fields.new ≡ without_member name.now fields.old }
{
    let value = fields.need(alloc, name)?;
    Ok(read_boolean(alloc, value, name)?)
}

/// Whether an object that has nothing else says yes.
pub fn read_told_flag(alloc: Global, value: Value, name: &str) -> Result<bool, TaskFault>
    ensures value { GivesUnless TaskFault.Memory result (flag_told name.now (view value)) }
{
    let mut fields = Fields::open(alloc, value, "answer")?;
    let flag = take_flag(alloc, &mut fields, name)?;
    fields.end(alloc)?;
    Ok(flag)
}

fn moment_of(value: &Value) -> Option<Moment>
    ensures value { result ≡ moment_of (view value.now) }
    ensures bound { IfSome result (λ moment. moment ≤ MAX_MOMENT) }
{
    match value.as_u64() {
        Some(moment) if moment <= MAX_MOMENT => Some(moment),
        _ => None,
    }
}

fn window_from(first: Option<Moment>, last: Option<Moment>) -> Option<Window>
    requires { IfSome last (λ moment. moment ≤ MAX_MOMENT) }
    ensures value { result ≡ window_from first last }
    ensures bounds { IfSome result IsWindow }
{
    match (first, last) {
        (Some(first), Some(last)) if first <= last => Some(Window { first, last }),
        _ => None,
    }
}

/// The window whose two ends stand in a list.
fn window_of(ends: &[Value]) -> Option<Window>
    ensures value { result ≡ window_of (map view ends.now) }
    ensures bounds { IfSome result IsWindow }
{
    match ends {
        [first, last] => window_from(moment_of(first), moment_of(last)),
        _ => None,
    }
}

fn read_window(alloc: Global, value: Value, name: &str) -> Result<Window, TaskFault>
    ensures value { GivesUnless TaskFault.Memory result (window_in name.now (view value)) }
    ensures bounds { IfOk result IsWindow }
{
    let ends = read_list(alloc, value, name)?;
    match window_of(ends.as_slice()) {
        Some(window) => Ok(window),
        None => Err(JsonFault::wrong_kind(alloc, name).into()),
    }
}

fn read_windows(alloc: Global, values: Vec<Value>, name: &str) -> Result<Items<Window>, TaskFault>
    ensures value { GivesUnless TaskFault.Memory result (read_each (window_in name.now) (map view values.items)) }
    ensures bounds { IfOk result (All IsWindow) }
    ensures count { IfOk result (λ windows. length windows ≡ length values.items) }
{
    let mut windows = Items::new(alloc);
    for value in values {
        windows.push(read_window(alloc, value, name)?)?;
    }
    Ok(windows)
}

fn take_windows(alloc: Global, fields: &mut Fields, name: &str) -> Result<Items<Window>, TaskFault>
    ensures value { GivesUnless TaskFault.Memory result (required wrapped windows_in name.now fields.old) }
    ensures bounds { IfOk result IsTier }
    ensures rest { fields.new ≡ without_member name.now fields.old }
{
    let value = fields.need(alloc, name)?;
    let values = read_list(alloc, value, name)?;
    if values.len() > MOST_WINDOWS {
        return Err(JsonFault::wrong_kind(alloc, name).into());
    }
    read_windows(alloc, values, name)
}

fn read_name(alloc: Global, value: Value) -> Result<Text, TaskFault>
    ensures value { GivesUnless TaskFault.Memory result (text_at (codes "tools") (view value)) }
{
    Ok(Text::from_string(read_text(alloc, value, "tools")?))
}

fn read_names(alloc: Global, values: Vec<Value>) -> Result<Items<Text>, TaskFault>
    ensures value { GivesUnless TaskFault.Memory result (read_each (text_at (codes "tools")) (map view values.items)) }
{
    let mut names = Items::new(alloc);
    for value in values {
        names.push(read_name(alloc, value)?)?;
    }
    Ok(names)
}

fn are_tools(names: &[Text]) -> bool
    ensures { result ≡ are_tools names.now }
{
    names.len() <= ALL_TOOLS && all_tools(names) && all_differ(names)
}

fn take_tools(alloc: Global, fields: &mut Fields) -> Result<Items<Text>, TaskFault>
    ensures value { GivesUnless TaskFault.Memory result (required wrapped tools_in (codes "tools") fields.old) }
    ensures tools { IfOk result (λ names. are_tools names ≡ true) }
    ensures rest { fields.new ≡ without_member (codes "tools") fields.old }
{
    let value = fields.need(alloc, "tools")?;
    let names = read_names(alloc, read_list(alloc, value, "tools")?)?;
    if !are_tools(names.as_slice()) {
        return Err(JsonFault::wrong_kind(alloc, "tools").into());
    }
    Ok(names)
}

#[tactic(auto, unfolding(crate::specs::Told::first_in))]
fn take_first(alloc: Global, fields: &mut Fields) -> Result<Items<Window>, TaskFault>
    ensures value { GivesUnless TaskFault.Memory result (first_in fields.old) }
    ensures bounds { IfOk result IsTier }
    ensures rest { fields.new ≡ without_member (codes "first-tier") fields.old }
{
    take_windows(alloc, fields, "first-tier")
}

#[tactic(auto, unfolding(crate::specs::Told::second_in))]
fn take_second(alloc: Global, fields: &mut Fields) -> Result<Items<Window>, TaskFault>
    ensures value { GivesUnless TaskFault.Memory result (second_in fields.old) }
    ensures bounds { IfOk result IsTier }
    ensures rest { fields.new ≡ without_member (codes "second-tier") fields.old }
{
    take_windows(alloc, fields, "second-tier")
}

/// The two tiers of an answer.
fn take_tiers(alloc: Global, fields: &mut Fields) -> Result<Tiers, TaskFault>
    ensures value { GivesUnless TaskFault.Memory result (tiers_in fields.old) }
    ensures bounds { IfOk result (λ tiers. IsTier tiers.first × IsTier tiers.second) }
    ensures rest { OnOk result (fields.new ≡ after_tiers fields.old) }
{
    let first = take_first(alloc, fields)?;
    let second = take_second(alloc, fields)?;
    Ok(Tiers { first, second })
}

/// The free answer, if nothing but comments is left beside it.
fn end_free(alloc: Global, fields: Fields, answer: FreeAnswer) -> Result<FreeAnswer, TaskFault>
    requires tools { are_tools answer.tools ≡ true }
    requires first { IsTier answer.tiers.first }
    requires second { IsTier answer.tiers.second }
    ensures value { GivesUnless TaskFault.Memory result (ended fields answer) }
    ensures bounds { IfOk result IsFreeHeard }
    ensures short { IfOk result (λ answer. answer_bytes answer ≤ most_input_texts) }
{
    fields.end(alloc)?;
    Ok(answer)
}

/// The answer to a question for free starts.
pub fn read_free(alloc: Global, value: Value) -> Result<FreeAnswer, TaskFault>
    ensures value { GivesUnless TaskFault.Memory result (free_told (view value)) }
    ensures bounds { IfOk result IsFreeHeard }
    ensures short { IfOk result (λ answer. answer_bytes answer ≤ most_input_texts) }
{
    let mut fields = Fields::open(alloc, value, "answer")?;
    let tiers = take_tiers(alloc, &mut fields)?;
    let tools = take_tools(alloc, &mut fields)?;
    end_free(alloc, fields, FreeAnswer { tools, tiers })
}

/// The compact text of a result: of at most 60 levels, with whole numbers alone, and at most 65,536 bytes long.
fn read_result(alloc: Global, value: &Value) -> Result<Text, TaskFault>
    ensures value { GivesUnless TaskFault.Memory result (result_in (view value.now)) }
    ensures bounds { IfOk result IsResultHeard }
{
    if !is_whole(value) || is_deeper(value, MOST_LEVELS) {
        return Err(JsonFault::wrong_kind(alloc, "result").into());
    }
    let text = write_text(alloc, value)?;
    if text.len() > MOST_RESULT {
        return Err(JsonFault::wrong_kind(alloc, "result").into());
    }
    Ok(text)
}

fn read_state(text: &str) -> Option<State>
    ensures { result ≡ state_named text.now }
{
    match text {
        "missed" => Some(State::Missed),
        "preempted" => Some(State::Preempted),
        "nonstart" => Some(State::Nonstart),
        "canceled" => Some(State::Canceled),
        "finished" => Some(State::Finished),
        "failed" => Some(State::Failed),
        "running" => Some(State::Running),
        "cleanup" => Some(State::Cleanup),
        "overdue" => Some(State::Overdue),
        "on-deck" => Some(State::OnDeck),
        "pending" => Some(State::Pending),
        _ => None,
    }
}

/// The state of a name that stands at a member.
pub fn take_state(alloc: Global, fields: &mut Fields, name: &str) -> Result<State, TaskFault>
    ensures value { GivesUnless TaskFault.Memory result (required wrapped state_in name.now fields.old) }
    ensures rest { fields.new ≡ without_member name.now fields.old }
{
    let text = take_text(alloc, fields, name)?;
    match read_state(text.as_str()) {
        Some(state) => Ok(state),
        None => Err(JsonFault::wrong_kind(alloc, name).into()),
    }
}

fn end_answer(alloc: Global, fields: Fields, answer: PeerAnswer) -> Result<PeerAnswer, TaskFault>
    ensures value { GivesUnless TaskFault.Memory result (ended fields answer) }
    ensures same { IfOk result (λ made. made ≡ answer) }
{
    fields.end(alloc)?;
    Ok(answer)
}

fn read_pending(alloc: Global, mut fields: Fields) -> Result<PeerAnswer, TaskFault>
    ensures value { GivesUnless TaskFault.Memory result (outcome_by None fields) }
    ensures bounds { IfOk result IsAnswer }
    ensures short { IfOk result (λ made. heard_texts made ≤ most_input_texts) }
{
    let state = take_state(alloc, &mut fields, "state")?;
    end_answer(alloc, fields, PeerAnswer::State(state))
}

/// How a run went, or the state that it is in.
pub fn read_outcome(alloc: Global, value: Value) -> Result<PeerAnswer, TaskFault>
    ensures value { GivesUnless TaskFault.Memory result (outcome_told (view value)) }
    ensures bounds { IfOk result IsAnswer }
    ensures short { IfOk result (λ made. heard_texts made ≤ most_input_texts) }
{
    let mut fields = Fields::open(alloc, value, "answer")?;
    match fields.take("result") {
        None => read_pending(alloc, fields),
        Some(value) => {
            let text = read_result(alloc, &value)?;
            end_answer(alloc, fields, PeerAnswer::Result(text))
        }
    }
}
