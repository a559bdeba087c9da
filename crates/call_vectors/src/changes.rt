// The calls with two lists of clock changes (W-208).
use super::answers::{print_answer, print_outcome};
use super::input::{first, next_all, next_byte, next_i32, next_size, next_u32, next_u64};
use super::printing::{print_all, print_number, print_signed, print_state};
use state::State;
use std::io::{Stdin, Stdout};

fn play_step(from: Stdin, out: Stdout, s: State, skipped: &[u64], repeated: &[u64]) {
    let r = clock_changes::step_on(s, skipped, repeated, next_i32(from));
    print_answer(out, r.residual, print_signed);
    print_state(out, r.state);
}

fn play_missing(out: Stdout, s: State, skipped: &[u64], repeated: &[u64]) {
    let r = clock_changes::missing_on(s, skipped, repeated);
    print_outcome(out, r.outcome);
    print_state(out, r.state);
}

fn play_batch(
    from: Stdin,
    out: Stdout,
    s: State,
    skipped: &[u64],
    repeated: &[u64],
    levels: &mut [i64],
) {
    let mut space = [0i32; 256];
    let readings = next_all(from, &mut space, next_size(from), next_i32);
    let r = updates::batches::batch_on(s, skipped, repeated, readings, levels);
    print_outcome(out, r.outcome);
    print_number(out, r.taken as u64);
    print_state(out, r.state);
}

// Cells start as 77, so that what a call leaves untouched is seen.
fn play_cells(
    from: Stdin,
    out: Stdout,
    operation: u8,
    s: State,
    skipped: &[u64],
    repeated: &[u64],
) {
    let mut cells = [77i64; 520];
    let values = first(&mut cells, next_size(from));
    if operation == 20 {
        play_batch(from, out, s, skipped, repeated, values);
    } else {
        print_outcome(
            out,
            forecasting::changes::forecasts_on(s, skipped, repeated, next_u32(from), values),
        );
    }
    print_all(out, values, print_signed);
}

fn play_window(from: Stdin, out: Stdout, s: State, skipped: &[u64], repeated: &[u64]) {
    let first = next_byte(from);
    let end = next_byte(from);
    print_answer(
        out,
        windows::window_maximum(s, skipped, repeated, first, end),
        print_signed,
    );
}

// A list has at most 64 counts.
pub fn play(from: Stdin, out: Stdout, operation: u8, s: State) {
    let mut first = [0u64; 64];
    let skipped = next_all(from, &mut first, next_size(from), next_u64);
    let mut second = [0u64; 64];
    let repeated = next_all(from, &mut second, next_size(from), next_u64);
    match operation {
        18 => play_step(from, out, s, skipped, repeated),
        19 => play_missing(out, s, skipped, repeated),
        21 => print_answer(
            out,
            forecasting::changes::forecast_on(s, skipped, repeated, next_u32(from)),
            print_signed,
        ),
        23 => play_window(from, out, s, skipped, repeated),
        _ => play_cells(from, out, operation, s, skipped, repeated),
    }
}
