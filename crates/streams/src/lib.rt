// A whole stream of commands and its text: document 01, "The program's lines".
#![tactic(auto)]

pub mod promises;

ghost use Rattle.std.specs.Prelude.{◌≡◌, length};
ghost use Rattle.commands.specs.Commands.{perform_checkpoints};
ghost use Rattle.streams.specs.Stream.{admit, write_next, next_bytes};

use commands::{Performed, Session, perform};
use layout::MAX_SIZE;
use lines::write_line;
use state::{Rejection, unless};

// The longest input of the program.
pub const INPUT_LIMIT: usize = 65536;

// The longest line, that of a saved snapshot: its letter, a space, two digits a byte, the line's end.
pub const MAX_LINE: usize = 3 + 2 * MAX_SIZE;

// The answer to a command, and its line.
#[derive(Clone, Copy)]
pub struct Written {
    pub performed: Performed,
    pub line: Result<usize, Rejection>,
}

// Whether the program takes a stream: tested once, before its first command.
pub fn admit(stream: &[u8]) -> Result<(), Rejection>
    ensures { result ≡ admit stream.now }
{
    unless(stream.len() <= INPUT_LIMIT, Rejection::InputTooLong)
}

// One command of the program's stream, and its line at the start of a buffer.
pub fn write_next(
    stream: &[u8],
    session: Session,
    checkpoints: &mut [u8],
    line: &mut [u8],
) -> Written
    ensures answer { result ≡ write_next stream.now session checkpoints.old (length line.old) }
    ensures kept { checkpoints.new ≡ perform_checkpoints stream.now session checkpoints.old }
    ensures bytes { line.new ≡ next_bytes stream.now session checkpoints.old line.old }
{
    let mut saved = [0u8; MAX_SIZE];
    let performed = perform(stream, session, checkpoints, &mut saved);
    let reply = performed.reply;
    let written = write_line(reply, &saved, line);
    Written {
        performed,
        line: written,
    }
}
