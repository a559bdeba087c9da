// States kept to go back to: document 02, W-209. A checkpoint is a state that one of the paper's four names holds, a slot the part of a lent buffer that is its.
#![tactic(auto)]

pub mod promises;

ghost use Rattle.std.specs.Prelude.{◌≡◌, length};
ghost use Rattle.checkpoints.specs.Checkpoints.{slot_at, store, stored_bytes, nothing_kept, restore};

use checks::check;
use layout::MAX_SIZE;
use saving::save;
use snapshot::{Opened, read};
use state::{Rejection, State, no_state};

// The names 0 to 3.
pub const SLOTS: u8 = 4;

// A slot has room for every snapshot.
pub const SLOT_SIZE: usize = MAX_SIZE;

// The bytes of a buffer with all slots. Zeros hold nothing.
pub const CHECKPOINTS_SIZE: usize = SLOT_SIZE * (SLOTS as usize);

// Where a slot begins.
fn slot_at(slot: u8) -> usize
    ensures { result ≡ slot_at slot }
{
    SLOT_SIZE * (slot as usize)
}

// Keeps a state, whole, as its snapshot in a slot; the other slots stay. The state is checked once: by `save`, or where the slot or the room is rejected.
pub fn store(s: State, slot: u8, checkpoints: &mut [u8]) -> Result<(), Rejection>
    ensures answer { result ≡ store s slot (length checkpoints.old) }
    ensures bytes { checkpoints.new ≡ stored_bytes s slot checkpoints.old }
{
    if SLOTS <= slot {
        return check(s).and(Err(Rejection::NoCheckpoint));
    }
    if checkpoints.len() < CHECKPOINTS_SIZE {
        return check(s).and(Err(Rejection::ShortBuffer));
    }
    let at = slot_at(slot);
    save(s, &mut checkpoints[at..])
}

fn nothing_kept() -> Opened
    ensures { result ≡ nothing_kept }
{
    Opened {
        outcome: Err(Rejection::NoCheckpoint),
        state: no_state(),
    }
}

// The state that a slot holds, which still holds it. It is checked as any snapshot is: the buffer may hold anything.
pub fn restore(slot: u8, checkpoints: &[u8]) -> Opened
    ensures { result ≡ restore slot checkpoints.now }
{
    if SLOTS <= slot {
        return nothing_kept();
    }
    if checkpoints.len() < CHECKPOINTS_SIZE {
        return nothing_kept();
    }
    let from = slot_at(slot);
    let to = from + SLOT_SIZE;
    let found = read(&checkpoints[from..to]);
    if found.outcome.is_ok() {
        found
    } else {
        nothing_kept()
    }
}
