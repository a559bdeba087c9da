// What the program writes: numbers, each before a blank. A write that fails is passed over.
use lines::magnitude;
use state::{Score, State};
use std::io::{Stdout, Write};

pub fn print_number(mut out: Stdout, n: u64) {
    let _ = write!(out, "{n} ");
}

pub fn print_code(out: Stdout, code: u8) {
    print_number(out, code as u64);
}

pub fn print_signed(mut out: Stdout, z: i64) {
    if z < 0 {
        let _ = out.write_all(b"-");
    }
    print_number(out, magnitude(z));
}

pub fn end_line(mut out: Stdout) {
    let _ = out.write_all(b"\n");
}

// The cells of a slice, one after the other.
pub fn print_all<T: Copy, F: Fn(Stdout, T)>(out: Stdout, cells: &[T], show: F)
    requires { F.IsAlwaysCallable show }
{
    for &cell in cells {
        show(out, cell);
    }
}

// By its bits; a NaN, which none of the calls gives, by a word of its own.
pub fn print_double(mut out: Stdout, x: f64) {
    if x == x {
        print_number(out, f64::to_bits(x));
    } else {
        let _ = out.write_all(b"NaN ");
    }
}

pub fn print_bytes(out: Stdout, bytes: &[u8]) {
    print_all(out, bytes, print_code);
}

fn print_score(out: Stdout, s: Score) {
    print_number(out, s.readings);
    print_number(out, s.high);
    print_number(out, s.low);
}

pub fn print_state(out: Stdout, s: State) {
    let cells = s.seasonal;
    print_code(out, s.outside as u8);
    print_all(
        out,
        &[
            s.model as i64,
            s.period as i64,
            s.alpha as i64,
            s.beta as i64,
            s.gamma as i64,
            s.phi as i64,
            s.level,
            s.trend,
        ],
        print_signed,
    );
    print_code(out, s.index);
    print_number(out, s.count);
    print_score(out, s.score);
    print_all(out, &cells, print_signed);
}
