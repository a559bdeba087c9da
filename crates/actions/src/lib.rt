// What each command makes of a state: document 01, "Commands". A rejected one leaves it as it was.
#![tactic(auto)]

pub mod copies;
pub mod looks;
pub mod readings;

ghost use Rattle.std.specs.Prelude.{◌≡◌};
ghost use Rattle.actions.specs.Actions.{accepted, rejected};

use replies::Reply;
use state::{Rejection, State};

// A command's answer, and the state that stands after it.
#[derive(Clone, Copy)]
pub struct Action {
    pub answer: Result<Reply, Rejection>,
    pub state: State,
}

// What 10 or 18 does, and the bytes of its group, or of a rejected one those before the rejected command.
#[derive(Clone, Copy)]
pub struct Opening {
    pub action: Action,
    pub size: usize,
}

pub fn accept(reply: Reply, state: State) -> Action
    ensures { result ≡ accepted reply state }
{
    Action {
        answer: Ok(reply),
        state,
    }
}

pub fn reject(state: State, rejection: Rejection) -> Action
    ensures { result ≡ rejected state rejection }
{
    Action {
        answer: Err(rejection),
        state,
    }
}
