// Keeping a state and bringing it back (W-209).
use super::answers::print_outcome;
use super::input::{first, next_byte, next_size, next_state};
use super::printing::{print_bytes, print_state};
use readers::read_full;
use state::State;
use std::io::{Stdin, Stdout};

fn play_store(from: Stdin, out: Stdout, s: State) {
    let name = next_byte(from);
    let mut cells = [77u8; 2304];
    let bytes = first(&mut cells, next_size(from));
    print_outcome(out, checkpoints::store(s, name, bytes));
    print_bytes(out, bytes);
}

fn play_restore(mut from: Stdin, out: Stdout) {
    let name = next_byte(from);
    let mut space = [0u8; 2304];
    let bytes = first(&mut space, next_size(from));
    read_full(&mut from, bytes);
    let found = checkpoints::restore(name, bytes);
    print_outcome(out, found.outcome);
    print_state(out, found.state);
}

pub fn play(from: Stdin, out: Stdout, operation: u8) {
    if operation == 24 {
        play_store(from, out, next_state(from));
    } else {
        play_restore(from, out);
    }
}
