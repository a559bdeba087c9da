// The commands that write a state as bytes and read one: 40, 50 and 51, and 10 or 18.
ghost use Rattle.std.specs.Prelude.{◌≡◌, length};
ghost use Rattle.saving.specs.Saving.{saved_bytes};
ghost use Rattle.checkpoints.specs.Checkpoints.{stored_bytes};
ghost use Rattle.actions.specs.Actions.{accepted, rejected, opening, save_state, store_state, restore_state};

use super::{Action, Opening, accept, reject};
use checkpoints::{restore, store};
use layout::size_of;
use replies::Reply;
use saving::save;
use snapshot::{read, rest};
use state::State;

pub fn save_state(s: State, buffer: &mut [u8]) -> Action
    ensures answer { result ≡ save_state s (length buffer.old) accepted (rejected s) }
    ensures bytes { buffer.new ≡ saved_bytes s buffer.old }
{
    match save(s, buffer) {
        Ok(()) => {
            let count = size_of(s.period) as u32;
            accept(Reply::Saved(count), s)
        }
        Err(rejection) => reject(s, rejection),
    }
}

// Without a line, as the next.
pub fn store_state(s: State, slot: u8, checkpoints: &mut [u8]) -> Action
    ensures answer { result ≡ store_state s slot (length checkpoints.old) accepted (rejected s) }
    ensures kept { checkpoints.new ≡ stored_bytes s slot checkpoints.old }
{
    match store(s, slot, checkpoints) {
        Ok(()) => accept(Reply::Silent, s),
        Err(rejection) => reject(s, rejection),
    }
}

pub fn restore_state(s: State, slot: u8, checkpoints: &[u8]) -> Action
    ensures { result ≡ restore_state slot checkpoints.now accepted (rejected s) }
{
    let found = restore(slot, checkpoints);
    match found.outcome {
        Ok(()) => accept(Reply::Silent, found.state),
        Err(rejection) => reject(s, rejection),
    }
}

// The group at the front of a stream.
pub fn open_snapshot(s: State, stream: &[u8]) -> Opening
    ensures { result ≡ opening s stream.now }
{
    let (left, outcome) = rest(stream);
    let size = stream.len() - left.len();
    let action = match outcome {
        Ok(()) => {
            let state = read(stream).state;
            let reply = Reply::Opened {
                model: state.model,
                period: state.period,
            };
            accept(reply, state)
        }
        Err(rejection) => reject(s, rejection),
    };
    Opening { action, size }
}
