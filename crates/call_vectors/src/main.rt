// Plays calls that no stream reaches: the records on standard input, as tests/second/calls.py writes them.
#![tactic(auto)]

mod answers;
mod changes;
mod input;
mod names;
mod printing;

use answers::play;
use input::next_byte;
use printing::{end_line, print_code};

// More records than any file of calls has, so that the program ends.
const MAX_RECORDS: usize = 100000;

// A line for each record: its operation, and what the call answers.
fn main(rt: HostRuntime) {
    let from = rt.stdin();
    let out = rt.stdout();
    for _ in 0..MAX_RECORDS {
        let operation = next_byte(from);
        if operation == 0 {
            return;
        }
        print_code(out, operation);
        play(from, out, operation);
        end_line(out);
    }
}
