// A stream of commands played to standard output, one write for each line.
#![tactic(auto)]

ghost use Rattle.std.specs.Prelude.{◌≡◌};
ghost use Rattle.checkpoints.specs.Checkpoints.{no_checkpoints};
ghost use Rattle.commands.specs.Commands.{start};
ghost use Rattle.streams.specs.Stream.{answers_from, answers, last_reply};

use checkpoints::CHECKPOINTS_SIZE;
use commands::start;
use lines::write_line;
use replies::{Reply, is_last};
use state::Rejection;
use std::io::{Stdout, Write};
use streams::{MAX_LINE, admit, write_next};

// Writes a line where all before it were written, and answers whether this one was too: what arrives is always a beginning of the whole text.
fn show(out: &mut Stdout, whole: bool, line: Result<usize, Rejection>, buffer: &[u8]) -> bool {
    let Ok(n) = line else {
        return false;
    };
    whole && n <= buffer.len() && out.write_all(&buffer[..n]).is_ok()
}

// The only line of a stream that is not taken.
fn reject_stream(out: &mut Stdout, rejection: Rejection) -> Reply
    ensures { result ≡ Reply.Rejected rejection 0 }
{
    let reply = Reply::Rejected {
        rejection,
        offset: 0,
    };
    let mut buffer = [0u8; MAX_LINE];
    let line = write_line(reply, b"", &mut buffer);
    show(out, true, line, &buffer);
    reply
}

// Performs the commands of a stream one after the other, up to its last answer, and writes each one's line. The last answer ends the loop: there is no count to run over. The states kept are lent to each command, and copied by none.
fn play_commands(out: &mut Stdout, s: &[u8]) -> Reply
    ensures { result ≡ last_reply (answers_from s.now start no_checkpoints) }
{
    let mut x = start();
    let mut checkpoints = [0u8; CHECKPOINTS_SIZE];
    let mut whole = true;
    loop {
        let mut buffer = [0u8; MAX_LINE];
        let found = write_next(s, x, &mut checkpoints, &mut buffer);
        let performed = found.performed;
        let line = found.line;
        let reply = performed.reply;
        x = performed.session;
        whole = show(out, whole, line, &buffer);
        if is_last(reply) {
            return reply;
        }
    }
}

// A stream's lines on standard output, and its last answer.
pub fn play(out: &mut Stdout, s: &[u8]) -> Reply
    ensures { result ≡ last_reply (answers s.now) }
{
    match admit(s) {
        Ok(()) => play_commands(out, s),
        Err(rejection) => reject_stream(out, rejection),
    }
}
