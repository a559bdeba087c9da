// A stream of commands, one at a time: document 01, "Commands" and "The program's lines".
#![tactic(auto)]

mod performing;

ghost use Rattle.std.specs.Prelude.{◌≡◌, length};
ghost use Rattle.commands.specs.Commands.{start, perform, perform_bytes, perform_checkpoints};

use actions::copies::{restore_state, save_state, store_state};
use actions::looks::{give_forecast, give_relative_variance, give_variance};
use actions::readings::{switch_state, take_missing, take_reading};
use actions::reject;
use decoding::{Command, decode};
use performing::{finish, open, settle};
use replies::Reply;
use state::{State, no_state};

// What stands between two commands of a stream: the offset of the next one, and the state, where one is open. The states kept (document 02, W-209) stand beside it, in a
// lent buffer (`checkpoints`), so that a command which keeps or brings back none copies none.
// The fields are private: only `start` and `perform` make a session, so that the state of every session passes its checks.
#[derive(Clone, Copy)]
pub struct Session {
    at: usize,
    // Whether a state is open.
    active: bool,
    state: State,
}

// The answer to a command, and what stands after it.
#[derive(Clone, Copy)]
pub struct Performed {
    pub reply: Reply,
    pub session: Session,
}

// Before the first command of a stream.
pub fn start() -> Session
    ensures { result ≡ start }
{
    Session {
        at: 0,
        active: false,
        state: no_state(),
    }
}

// The command of a stream at a session's offset: its answer, and what stands after it. A save writes into the buffer and 50 into the checkpoints, all else leaves both.
pub fn perform(
    stream: &[u8],
    session: Session,
    checkpoints: &mut [u8],
    buffer: &mut [u8],
) -> Performed
    ensures answer { result ≡ perform stream.now session checkpoints.old (length buffer.old) }
    ensures kept { checkpoints.new ≡ perform_checkpoints stream.now session checkpoints.old }
    ensures bytes { buffer.new ≡ perform_bytes stream.now session buffer.old }
{
    let found = decode(stream, session.at, session.active, session.state.model);
    let command = found.command;
    let state = session.state;
    let action = match command {
        Command::End => return finish(session),
        Command::Open => return open(stream, session),
        Command::Reading(y) => take_reading(state, y),
        Command::Missing => take_missing(state),
        Command::Forecast(horizon) => give_forecast(state, horizon),
        Command::Variance { horizon, sigma2 } => give_variance(state, horizon, sigma2),
        Command::Save => save_state(state, buffer),
        Command::Rejected(rejection) => reject(state, rejection),
        Command::SwitchToEven => switch_state(state),
        Command::RelativeVariance { horizon, sigma2 } => {
            give_relative_variance(state, horizon, sigma2)
        }
        Command::Store(slot) => store_state(state, slot, checkpoints),
        Command::Restore(slot) => restore_state(state, slot, checkpoints),
    };
    settle(session.at, session.active, found.next, session.at, action)
}
