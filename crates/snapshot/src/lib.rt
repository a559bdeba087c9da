// Reading a snapshot: document 01, "Commands". A snapshot is the paper's group.
#![tactic(auto)]

pub mod promises;
mod reading;

ghost use Rattle.std.specs.Prelude.{◌≡◌};
ghost use Rattle.state.specs.Rejections.{outcome};
ghost use Rattle.snapshot.specs.Snapshots.{open_code, read, rest_of};

use fields::state_at;
pub use reading::{Stopped, scan};
use state::{Rejection, State, no_state};

// What reading a snapshot gives: the state, or the rejection and a state that every check refuses. No Result of a state: the theorem RejectedState speaks of the state
// beside a rejection.
#[derive(Clone, Copy)]
pub struct Opened {
    pub outcome: Result<(), Rejection>,
    pub state: State,
}

// The snapshot at the front of a stream.
pub fn read(stream: &[u8]) -> Opened
    ensures { result ≡ read stream.now }
{
    match scan(stream) {
        Ok(_) => Opened {
            outcome: Ok(()),
            state: state_at(stream),
        },
        Err(stopped) => Opened {
            outcome: Err(stopped.rejection),
            state: no_state(),
        },
    }
}

// The rest of the caller's bytes after the snapshot at their front, and whether it was accepted.
// After a rejection it begins with the rejected command, so that the command's offset is the difference of the lengths.
pub fn rest(stream: &[u8]) -> (&[u8], Result<(), Rejection>)
    ensures part { result.0.now ≡ rest_of stream.now }
    ensures rejection { result.1 ≡ outcome (open_code stream.now) }
{
    match scan(stream) {
        Ok(end) => (&stream[end..], Ok(())),
        Err(stopped) => (&stream[stopped.offset..], Err(stopped.rejection)),
    }
}
