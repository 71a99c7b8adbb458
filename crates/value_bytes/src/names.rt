//! Names of states, of what may be full and of acknowledged orders, by their numbers.
ghost use Rattle.std.specs.Prelude.{◌∷◌, ◌≡◌, [], IfOk};
ghost use Rattle.value_bytes.specs.Gives.{Gives};
ghost use Rattle.value_bytes.specs.States.{FitsState, FitsTold, FitsWhat, state_cases, state_code, told_cases, told_code, what_cases, what_code};

use crate::fault::CodeFault;
use run_states::answer::Told;
use run_states::state::State;
use run_states::why::What;

/// What the number names, and these bytes.
pub fn read_what(number: u8, bytes: &[u8]) -> Result<(What, &[u8]), CodeFault>
    ensures value { Gives (λ x. (x.0, x.1.now)) result (what_cases number bytes.now) }
    ensures fits { IfOk result (λ x. FitsWhat x.0) }
{
    match number {
        0 => Ok((What::Runs, bytes)),
        1 => Ok((What::Results, bytes)),
        2 => Ok((What::Numbers, bytes)),
        _ => Err(CodeFault::NoValue),
    }
}

/// The number of what may be full.
pub fn what_number(what: What) -> u8
    ensures code { what_code what ≡ result ∷ [] }
    ensures fits { FitsWhat what }
{
    match what {
        What::Runs => 0,
        What::Results => 1,
        What::Numbers => 2,
    }
}

/// The state that the number names, and these bytes.
pub fn read_state(number: u8, bytes: &[u8]) -> Result<(State, &[u8]), CodeFault>
    ensures value { Gives (λ x. (x.0, x.1.now)) result (state_cases number bytes.now) }
    ensures fits { IfOk result (λ x. FitsState x.0) }
{
    match number {
        0 => Ok((State::Missed, bytes)),
        1 => Ok((State::Preempted, bytes)),
        2 => Ok((State::Nonstart, bytes)),
        3 => Ok((State::Canceled, bytes)),
        4 => Ok((State::Finished, bytes)),
        5 => Ok((State::Failed, bytes)),
        6 => Ok((State::Running, bytes)),
        7 => Ok((State::Cleanup, bytes)),
        8 => Ok((State::Overdue, bytes)),
        9 => Ok((State::OnDeck, bytes)),
        10 => Ok((State::Pending, bytes)),
        _ => Err(CodeFault::NoValue),
    }
}

/// The number of a state.
pub fn state_number(state: State) -> u8
    ensures code { state_code state ≡ result ∷ [] }
    ensures fits { FitsState state }
{
    match state {
        State::Missed => 0,
        State::Preempted => 1,
        State::Nonstart => 2,
        State::Canceled => 3,
        State::Finished => 4,
        State::Failed => 5,
        State::Running => 6,
        State::Cleanup => 7,
        State::Overdue => 8,
        State::OnDeck => 9,
        State::Pending => 10,
    }
}

/// The acknowledged order that the number names, and these bytes.
pub fn read_told(number: u8, bytes: &[u8]) -> Result<(Told, &[u8]), CodeFault>
    ensures value { Gives (λ x. (x.0, x.1.now)) result (told_cases number bytes.now) }
    ensures fits { IfOk result (λ x. FitsTold x.0) }
{
    match number {
        1 => Ok((Told::Confirm, bytes)),
        2 => Ok((Told::Cancel, bytes)),
        3 => Ok((Told::Material, bytes)),
        _ => Err(CodeFault::NoValue),
    }
}

/// The number of an acknowledged order.
pub fn told_number(told: Told) -> u8
    ensures code { told_code told ≡ result ∷ [] }
    ensures fits { FitsTold told }
{
    match told {
        Told::Confirm => 1,
        Told::Cancel => 2,
        Told::Material => 3,
    }
}
