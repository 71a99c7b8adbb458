//! How a tool takes part in a run, and when it is done.
ghost use Rattle.std.specs.Prelude.{◌≡◌, ◌≤◌};
ghost use Rattle.ps_time.specs.declared.moment.TheConstants.{MAX_LENGTH, MAX_MOMENT};
ghost use Rattle.plugin_core.specs.TestSpec.{test_length};
ghost use Rattle.plugin_tool.specs.Run.{role_in, outcome_at, good_after, stream_at, material_or};

use plugin_core::test_spec::TestSpec;
use ps_time::moment::{Length, Moment};

/// The part of a host in a run.
#[derive(Clone, Copy, Debug)]
pub enum Role {
    /// It is the only participant, or one of several that sleep.
    Only,
    /// It sends the material.
    Source,
    /// The material comes to it.
    Dest,
}

/// How a run went on a host.
#[derive(Clone, Copy, PartialEq, Eq)]
pub enum Outcome {
    Good,
    /// The material didn't come.
    TimedOut,
    /// Nobody took the material.
    NotTaken,
    /// The host was started again in the middle of the run.
    Restarted,
}

/// What a tool knows of its run.
#[derive(Clone, Copy)]
pub struct ToolView {
    /// When the run started, up to `MAX_MOMENT`.
    pub started: Moment,
    /// The end of the run's interval: up to `MAX_MOMENT + MAX_LENGTH`.
    pub end: Moment,
    /// The host's part.
    pub role: Role,
    /// Whether the material was acknowledged, at a source, or was heard, at a dest.
    pub material: bool,
}

/// The part of a participant in a run that this lead leads.
pub fn role_of(test: &TestSpec, lead: &str, host: &str) -> Role
    ensures { result ≡ role_in test.now lead.now host.now }
{
    match test {
        TestSpec::Simplestream { dest, .. } if !dest.is(lead) => {
            if host == lead {
                Role::Source
            } else {
                Role::Dest
            }
        }
        _ => Role::Only,
    }
}

/// How the tool's run went, as far as `moment`; `None` exactly where it isn't done.
pub fn done(test: &TestSpec, view: &ToolView, moment: Moment) -> Option<Outcome>
    requires length { test_length test.now ≤ MAX_LENGTH }
    requires started { view.now.started ≤ MAX_MOMENT }
    ensures { result ≡ outcome_at test.now view.now moment }
{
    match test {
        TestSpec::Idle(sleep) => after(view.started, sleep.duration, moment),
        TestSpec::Idleex(sleep) => after(view.started, sleep.duration, moment),
        TestSpec::Idlebgm { sleep, .. } => after(view.started, sleep.duration, moment),
        TestSpec::Idlemany { sleep, .. } => after(view.started, sleep.duration, moment),
        TestSpec::Simplestream { dawdle, .. } => streamed(view, *dawdle, moment),
    }
}

/// Good once the length has passed.
fn after(started: Moment, length: Length, moment: Moment) -> Option<Outcome>
    requires { (started ≤ MAX_MOMENT) × (length ≤ MAX_LENGTH) }
    ensures { result ≡ good_after started length moment }
{
    if started + length <= moment {
        Some(Outcome::Good)
    } else {
        None
    }
}

fn streamed(view: &ToolView, dawdle: Length, moment: Moment) -> Option<Outcome>
    requires { (view.now.started ≤ MAX_MOMENT) × (dawdle ≤ MAX_LENGTH) }
    ensures { result ≡ stream_at view.now dawdle moment }
{
    match view.role {
        Role::Only => after(view.started, dawdle, moment),
        Role::Source => heard_or(view, Outcome::NotTaken, moment),
        Role::Dest => heard_or(view, Outcome::TimedOut, moment),
    }
}

/// Good with the material, and else not before the end.
fn heard_or(view: &ToolView, otherwise: Outcome, moment: Moment) -> Option<Outcome>
    ensures { result ≡ material_or view.now otherwise moment }
{
    if view.material {
        Some(Outcome::Good)
    } else if view.end <= moment {
        Some(otherwise)
    } else {
        None
    }
}
