// The commands that change a state: 20, 21 and 14.
ghost use Rattle.std.specs.Prelude.{◌≡◌};
ghost use Rattle.actions.specs.Actions.{accepted, rejected, take_reading, take_missing, switch_state};

use super::{Action, accept, reject};
use checks::switching::switch_to_even;
use replies::Reply;
use state::State;
use updates::steps::{missing, step};

pub fn take_reading(s: State, y: i32) -> Action
    ensures { result ≡ take_reading s y accepted (rejected s) }
{
    let found = step(s, y);
    match found.residual {
        Ok(e) => accept(Reply::Residual(e), found.state),
        Err(rejection) => reject(s, rejection),
    }
}

pub fn take_missing(s: State) -> Action
    ensures { result ≡ take_missing s accepted (rejected s) }
{
    let found = missing(s);
    match found.outcome {
        Ok(()) => accept(Reply::Missing, found.state),
        Err(rejection) => reject(s, rejection),
    }
}

// Without a line.
pub fn switch_state(s: State) -> Action
    ensures { result ≡ switch_state s accepted (rejected s) }
{
    let found = switch_to_even(s);
    match found.outcome {
        Ok(()) => accept(Reply::Silent, found.state),
        Err(rejection) => reject(s, rejection),
    }
}
