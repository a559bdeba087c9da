// Writing the snapshot of a state, whole or one command of it: document 01, "Commands". A snapshot is the paper's group.
#![tactic(auto)]

mod bytes;
pub mod rewriting;
mod writing;

ghost use Rattle.std.specs.Prelude.{◌≡◌, length};
ghost use Rattle.saving.specs.Saving.{bytes_needed, save, saved_bytes};

use checks::check;
use layout::size_of;
use state::{Rejection, State, unless};
use writing::write_snapshot;

// The bytes that saving a state needs, told before anything is written.
pub fn bytes_needed(s: State) -> Result<usize, Rejection>
    ensures { result ≡ bytes_needed s }
{
    check(s)?;
    Ok(size_of(s.period))
}

// Writes the snapshot of a state at the front of a buffer: the state is checked first, then the room, before anything is written.
pub fn save(s: State, buffer: &mut [u8]) -> Result<(), Rejection>
    ensures answer { result ≡ save s (length buffer.old) }
    ensures bytes { buffer.new ≡ saved_bytes s buffer.old }
{
    let size = bytes_needed(s)?;
    unless(size <= buffer.len(), Rejection::ShortBuffer)?;
    write_snapshot(buffer, s);
    Ok(())
}
