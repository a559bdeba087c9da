// The calls, and what each answers: a rejection's number or 0, and then what the call gives.
use super::input::{first, next_all, next_i32, next_size, next_state, next_u32, next_u64};
use super::printing::{
    print_all, print_bytes, print_code, print_double, print_number, print_signed, print_state,
};
use super::{changes, names};
use readers::read_full;
use state::{Rejection, State, code_of, number};
use std::io::{Stdin, Stdout};
use weights::Variance;

pub fn print_outcome(out: Stdout, outcome: Result<(), Rejection>) {
    print_code(out, code_of(outcome));
}

// An accepted answer's value, after a 0, as `show` prints it.
pub fn print_answer<T, F: Fn(Stdout, T)>(out: Stdout, answer: Result<T, Rejection>, show: F)
    requires { F.IsAlwaysCallable show }
{
    match answer {
        Ok(value) => {
            print_code(out, 0);
            show(out, value);
        }
        Err(rejection) => print_code(out, number(rejection)),
    }
}

fn print_variance(out: Stdout, v: Variance) {
    print_number(out, v.high);
    print_number(out, v.low);
}

// A length has no 0 before it.
fn print_length(out: Stdout, length: Result<usize, Rejection>) {
    match length {
        Ok(n) => print_number(out, n as u64),
        Err(rejection) => print_code(out, number(rejection)),
    }
}

fn play_step(from: Stdin, out: Stdout, s: State) {
    let r = updates::steps::step(s, next_i32(from));
    print_answer(out, r.residual, print_signed);
    print_state(out, r.state);
}

fn play_missing(out: Stdout, s: State) {
    let r = updates::steps::missing(s);
    print_outcome(out, r.outcome);
    print_state(out, r.state);
}

fn play_switch(out: Stdout, s: State) {
    let r = checks::switching::switch_to_even(s);
    print_outcome(out, r.outcome);
    print_state(out, r.state);
}

fn play_switch_in_place(mut from: Stdin, out: Stdout) {
    let mut space = [0u8; 1024];
    let bytes = first(&mut space, next_size(from));
    read_full(&mut from, bytes);
    print_outcome(out, in_place::switch_to_even(bytes));
    print_bytes(out, bytes);
}

fn play_batch(from: Stdin, out: Stdout, s: State, levels: &mut [i64]) {
    let mut space = [0i32; 256];
    let readings = next_all(from, &mut space, next_size(from), next_i32);
    let r = updates::batches::batch(s, readings, levels);
    print_outcome(out, r.outcome);
    print_number(out, r.taken as u64);
    print_state(out, r.state);
}

// Cells start as 77, so that what a call leaves untouched is seen.
fn play_cells(from: Stdin, out: Stdout, operation: u8, s: State) {
    let mut cells = [77i64; 520];
    let values = first(&mut cells, next_size(from));
    match operation {
        5 => play_batch(from, out, s, values),
        7 => print_outcome(out, forecasting::forecasts(s, next_u32(from), values)),
        _ => print_outcome(
            out,
            forecasting::display_forecasts(s, next_u32(from), values),
        ),
    }
    print_all(out, values, print_signed);
}

fn play_weight_groups(from: Stdin, out: Stdout, s: State) {
    let mut space = [77u64; 520];
    let cells = first(&mut space, next_size(from));
    print_outcome(
        out,
        weighting::groups::weight_groups(s, next_u32(from), cells),
    );
    print_all(out, cells, print_number);
}

fn play_coefficients(from: Stdin, out: Stdout, s: State) {
    let mut space = [77u64; 520];
    let cells = first(&mut space, next_size(from));
    print_outcome(
        out,
        weighting::coefficients::coefficients(s, next_u32(from), cells),
    );
    print_all(out, cells, print_number);
}

fn play_relative(from: Stdin, out: Stdout, s: State) {
    let mut space = [77.0f64; 520];
    let cells = first(&mut space, next_size(from));
    print_answer(
        out,
        relative_variance::relative_variance(s, next_u32(from), next_u64(from), cells),
        print_double,
    );
    print_all(out, cells, print_double);
}

fn play_save(from: Stdin, out: Stdout, s: State) {
    let mut cells = [77u8; 1024];
    let bytes = first(&mut cells, next_size(from));
    print_outcome(out, saving::save(s, bytes));
    print_length(out, saving::bytes_needed(s));
    print_bytes(out, bytes);
}

fn play_read(mut from: Stdin, out: Stdout) {
    let mut space = [0u8; 1024];
    let bytes = first(&mut space, next_size(from));
    read_full(&mut from, bytes);
    let opened = snapshot::read(bytes);
    print_outcome(out, opened.outcome);
    print_state(out, opened.state);
    let (left, outcome) = snapshot::rest(bytes);
    print_outcome(out, outcome);
    print_bytes(out, left);
}

// Makes the call of an operation, and prints what it answers.
pub fn play(from: Stdin, out: Stdout, operation: u8) {
    match operation {
        1 => play_read(from, out),
        2 => print_outcome(out, checks::check(next_state(from))),
        3 => play_step(from, out, next_state(from)),
        4 => play_missing(out, next_state(from)),
        6 => print_answer(
            out,
            forecasting::forecast(next_state(from), next_u32(from)),
            print_signed,
        ),
        8 => print_answer(
            out,
            weighting::variances::weight(next_state(from), next_u32(from)),
            print_number,
        ),
        9 => print_answer(
            out,
            weighting::variances::variance(next_state(from), next_u32(from), next_u32(from)),
            print_variance,
        ),
        10 => play_save(from, out, next_state(from)),
        11 => print_answer(
            out,
            forecasting::display_forecast(next_state(from), next_u32(from)),
            print_signed,
        ),
        13 => play_switch(out, next_state(from)),
        14 => play_switch_in_place(from, out),
        15 => play_weight_groups(from, out, next_state(from)),
        16 => play_relative(from, out, next_state(from)),
        17 => play_coefficients(from, out, next_state(from)),
        18..=23 => changes::play(from, out, operation, next_state(from)),
        24.. => names::play(from, out, operation),
        _ => play_cells(from, out, operation, next_state(from)),
    }
}
