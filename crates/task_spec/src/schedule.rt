//! The reader of schedules.
ghost use Rattle.std.specs.Prelude.{◌≡◌, ◌≤◌, None, IfOk, codes};
ghost use Rattle.std.specs.Option.{ForSome};
ghost use Rattle.serde_json.specs.View.{view};
ghost use Rattle.ps_json.specs.Answer.{GivesUnless};
ghost use Rattle.ps_json.specs.Fields.{without_member};
ghost use Rattle.ps_time.specs.declared.moment.TheConstants.{MAX_LENGTH, MAX_MOMENT};
ghost use Rattle.ps_json.specs.Member.{optional};
ghost use Rattle.task_spec.specs.ReadSchedule.{start_in, length_in, repeat_in, until_in, runs_in, schedule_members, schedule_in};

use crate::fault::TaskFault;
use ps_json::fields::Fields;
use ps_json::kinds::{read_count, read_text};
use ps_time::moment::{Length, Moment, Round, TimeFault};
use ps_time::read_length::read_length;
use ps_time::read_moment::read_moment;
use ps_time::read_start::read_start;
use ps_time::text::Text;
use schedule_rule::rule::Rule;
use serde_json::Value;
use std::alloc::Global;

/// The moment of `start`, now where it is left out.
fn take_start(alloc: Global, fields: &mut Fields, now: Moment) -> Result<Moment, TaskFault>
    requires { now ≤ MAX_MOMENT }
    ensures value { GivesUnless TaskFault.Memory result (optional now (start_in now) (codes "start") fields.old) }
    ensures bound { IfOk result (λ start. start ≤ MAX_MOMENT) }
    ensures rest { fields.new ≡ without_member (codes "start") fields.old }
{
    let Some(value) = fields.take("start") else {
        return Ok(now);
    };
    let text = read_text(alloc, value, "start")?;
    match read_start(text.as_str(), now) {
        Ok(start) => Ok(start),
        Err(fault) => Err(TaskFault::BadTime(Text::new(alloc, "start")?, fault)),
    }
}

fn read_length_in(alloc: Global, value: Value, name: &str) -> Result<Length, TaskFault>
    ensures value { GivesUnless TaskFault.Memory result (length_in name.now (view value)) }
    ensures bound { IfOk result (λ len. len ≤ MAX_LENGTH) }
{
    let text = read_text(alloc, value, name)?;
    match read_length(text.as_str()) {
        Ok(length) => Ok(length),
        Err(fault) => Err(TaskFault::BadTime(Text::new(alloc, name)?, fault)),
    }
}

fn take_slip(alloc: Global, fields: &mut Fields) -> Result<Length, TaskFault>
    ensures value { GivesUnless TaskFault.Memory result (optional 300 length_in (codes "slip") fields.old) }
    ensures bound { IfOk result (λ slip. slip ≤ MAX_LENGTH) }
    ensures rest { fields.new ≡ without_member (codes "slip") fields.old }
{
    match fields.take("slip") {
        None => Ok(300),
        Some(value) => read_length_in(alloc, value, "slip"),
    }
}

fn take_repeat(alloc: Global, fields: &mut Fields) -> Result<Option<Length>, TaskFault>
    ensures value { GivesUnless TaskFault.Memory result (optional None repeat_in (codes "repeat") fields.old) }
    ensures bound { IfOk result (λ repeat. ForSome repeat (λ r. (1 ≤ r) × (r ≤ MAX_LENGTH))) }
    ensures rest { fields.new ≡ without_member (codes "repeat") fields.old }
{
    let Some(value) = fields.take("repeat") else {
        return Ok(None);
    };
    let repeat = read_length_in(alloc, value, "repeat")?;
    if repeat == 0 {
        return Err(TaskFault::BadTime(Text::new(alloc, "repeat")?, TimeFault::Range));
    }
    Ok(Some(repeat))
}

fn take_until(alloc: Global, fields: &mut Fields) -> Result<Option<Moment>, TaskFault>
    ensures value { GivesUnless TaskFault.Memory result (optional None until_in (codes "until") fields.old) }
    ensures bound { IfOk result (λ until. ForSome until (λ u. u ≤ MAX_MOMENT)) }
    ensures rest { fields.new ≡ without_member (codes "until") fields.old }
{
    let Some(value) = fields.take("until") else {
        return Ok(None);
    };
    let text = read_text(alloc, value, "until")?;
    match read_moment(text.as_str(), Round::Down) {
        Ok(until) => Ok(Some(until)),
        Err(fault) => Err(TaskFault::BadTime(Text::new(alloc, "until")?, fault)),
    }
}

fn take_runs(alloc: Global, fields: &mut Fields) -> Result<Option<u32>, TaskFault>
    ensures value { GivesUnless TaskFault.Memory result (optional None runs_in (codes "max-runs") fields.old) }
    ensures bound { IfOk result (λ runs. ForSome runs (λ n. (1 ≤ n) × (n ≤ 4294967295))) }
    ensures rest { fields.new ≡ without_member (codes "max-runs") fields.old }
{
    let Some(value) = fields.take("max-runs") else {
        return Ok(None);
    };
    let runs = read_count(alloc, value, "max-runs", 1, 4_294_967_295)?;
    Ok(Some(runs as u32))
}

fn read_members(alloc: Global, mut fields: Fields, now: Moment) -> Result<Rule, TaskFault>
    requires { now ≤ MAX_MOMENT }
    ensures value { GivesUnless TaskFault.Memory result (schedule_members now fields) }
    ensures runs { IfOk result (λ rule. ForSome rule.max_runs (λ n. n ≤ 4294967295)) }
{
    let anchor = take_start(alloc, &mut fields, now)?;
    let slip = take_slip(alloc, &mut fields)?;
    let repeat = take_repeat(alloc, &mut fields)?;
    let until = take_until(alloc, &mut fields)?;
    let max_runs = take_runs(alloc, &mut fields)?;
    fields.end(alloc)?;
    Ok(Rule {
        anchor,
        slip,
        repeat,
        until,
        max_runs,
    })
}

/// The rule that a schedule is, where `now` is the moment of posting.
pub fn read_schedule(alloc: Global, value: Value, now: Moment) -> Result<Rule, TaskFault>
    requires { now ≤ MAX_MOMENT }
    ensures value { GivesUnless TaskFault.Memory result (schedule_in now (codes "schedule") (view value)) }
    ensures runs { IfOk result (λ rule. ForSome rule.max_runs (λ n. n ≤ 4294967295)) }
{
    let fields = Fields::open(alloc, value, "schedule")?;
    read_members(alloc, fields, now)
}
