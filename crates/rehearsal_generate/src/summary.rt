//! The summary of the work.
ghost use Rattle.std.specs.Prelude.{◌≡◌, ◌++◌, ◌≤◌, All, IfOk, OnOk, map, true};
ghost use Rattle.std.specs.String.{string_bytes};
ghost use Rattle.ps_time.specs.declared.moment.TheConstants.{MAX_MOMENT};
ghost use Rattle.run_states.specs.Life.{HasMoments, settled_rows, state_of};
ghost use Rattle.rehearsal_model.specs.Plays.{IsUnarmed};
ghost use Rattle.rehearsal_generate.specs.Summary.{count_line, count_named, counts_text, stage_states, state_line, states_of, states_text, states_told, summary_text};

use crate::tally::Tally;
use ps_time::memory::Memory;
use ps_time::moment::Moment;
use ps_time::text::Text;
use psched_rehearse::state::rehearsal::Rehearsal;
use psched_rehearse::state::simulated::SimulatedHost;
use rehearsal_report::table::settled_state;
use run_states::lent::LentRows;
use run_states::state::State;
use std::alloc::Global;

// In the order of the summary.
static TOLD: [State; 11] = [
    State::Pending,
    State::OnDeck,
    State::Running,
    State::Cleanup,
    State::Finished,
    State::Overdue,
    State::Missed,
    State::Failed,
    State::Preempted,
    State::Nonstart,
    State::Canceled,
];

fn told() -> &'static [State]
    ensures { result.now ≡ states_told }
{
    &TOLD
}

fn add_states(states: &mut Vec<State>, rows: LentRows<'_>, moment: Moment) -> Result<(), Memory>
    requires moment { moment ≤ MAX_MOMENT }
    requires rows { All HasMoments rows }
    ensures { OnOk result (states.new.items ≡ states.old.items ++ map (λ r. state_of r moment) (settled_rows moment rows.entry)) }
{
    for row in rows {
        states.push(settled_state(row, moment))?;
    }
    Ok(())
}

fn add_held_host(
    states: &mut Vec<State>,
    held_host: &SimulatedHost,
    moment: Moment,
) -> Result<(), Memory>
    requires ready { held_host.now.ready ≡ true }
    requires moment { moment ≤ MAX_MOMENT }
    ensures { OnOk result (states.new.items ≡ states.old.items ++ stage_states moment held_host.now.state) }
{
    add_states(states, held_host.book().rows().in_order(), moment)
}

// The states of all hosts' runs, at the last moment.
fn states_of(alloc: Global, now: &Rehearsal) -> Result<Vec<State>, Memory>
    requires unarmed { All IsUnarmed now.now.held_hosts }
    requires moment { now.now.last ≤ MAX_MOMENT }
    ensures { IfOk result (λ states. states.items ≡ states_of now.now) }
{
    let moment = now.last();
    let mut states = Vec::new(alloc);
    for held_host in now.held_hosts() {
        add_held_host(&mut states, held_host, moment)?;
    }
    Ok(states)
}

fn count_named(states: &[State], name: &str) -> usize
    ensures { result ≡ count_named name.now states.now }
{
    let mut count = 0;
    for state in states {
        if state.name() == name {
            count += 1;
        }
    }
    count
}

fn add_line(text: &mut String, name: &str, count: usize) -> Result<(), Memory>
    ensures { OnOk result (string_bytes text.new ≡ string_bytes text.old ++ count_line name.now count) }
{
    writeln!(text, "{name} {count}")?;
    Ok(())
}

#[tactic(auto, unfolding(crate::specs::Summary::counts_text))]
fn add_counts(text: &mut String, count: u32, now: &Rehearsal, tally: &Tally) -> Result<(), Memory>
    ensures { OnOk result (string_bytes text.new ≡ string_bytes text.old ++ counts_text count now.now tally.now) }
{
    add_line(text, "hosts", 8)?;
    add_line(text, "tasks", count as usize)?;
    add_line(text, "messages", now.messages().len())?;
    add_line(text, "lost", tally.lost.len())?;
    add_line(text, "crashes", tally.crashes.len())
}

// One line of the summary.
fn add_state(text: &mut String, states: &[State], state: State) -> Result<(), Memory>
    ensures { OnOk result (string_bytes text.new ≡ string_bytes text.old ++ state_line states.now state) }
{
    let name = state.name();
    add_line(text, name, count_named(states, name))
}

#[tactic(auto, unfolding(crate::specs::Summary::states_text))]
fn add_state_counts(text: &mut String, states: &[State]) -> Result<(), Memory>
    ensures { OnOk result (string_bytes text.new ≡ string_bytes text.old ++ states_text states.now) }
{
    for state in told() {
        add_state(text, states, *state)?;
    }
    Ok(())
}

/// What is told of the work of so many posts.
pub fn summarize(alloc: Global, count: u32, now: &Rehearsal, tally: &Tally) -> Result<Text, Memory>
    requires unarmed { All IsUnarmed now.now.held_hosts }
    requires moment { now.now.last ≤ MAX_MOMENT }
    ensures { IfOk result (λ text. text ≡ summary_text count now.now tally.now) }
{
    let states = states_of(alloc, now)?;
    let mut text = String::new(alloc);
    add_counts(&mut text, count, now, tally)?;
    add_state_counts(&mut text, states.as_slice())?;
    Ok(Text::from_string(text))
}
