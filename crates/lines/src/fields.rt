// A line's bytes, a letter and up to three numbers, at the start of a lent buffer.
ghost use Rattle.std.specs.Prelude.{◌≡◌, ◌+◌, ◌≤◌, length, take};
ghost use Rattle.std.proofs.lemmas.List.Edits.{sets};
ghost use Rattle.lines.specs.Lines.{number_bytes, field_bytes, fields_bytes, Put};

use super::digits::{digit_count, magnitude, put_byte, put_decimal, put_hexadecimal, put_signed};
use replies::{Fields, Number};

// So many of some bytes, or all of them where they are fewer.
fn front(bytes: &[u8], n: u32) -> &[u8]
    ensures { (result.now ≡ take n bytes.now) × (length result.now ≤ n) }
{
    bytes.get(..n as usize).unwrap_or(bytes)
}

fn number_length(x: Number, saved: &[u8]) -> usize
    ensures { (result ≡ length (number_bytes saved.now x)) × (result ≤ 8589934592) }
{
    match x {
        Number::Unsigned(n) => 1 + digit_count(n),
        Number::Signed(z) => {
            let k = digit_count(magnitude(z));
            if z < 0 { 2 + k } else { 1 + k }
        }
        Number::Hexadecimal(n) => {
            let shown = front(saved, n);
            1 + 2 * shown.len()
        }
    }
}

fn field_length(x: Option<Number>, saved: &[u8]) -> usize
    ensures { (result ≡ length (field_bytes saved.now x)) × (result ≤ 8589934592) }
{
    match x {
        None => 0,
        Some(x) => number_length(x, saved),
    }
}

pub fn fields_length(f: Fields, saved: &[u8]) -> usize
    ensures { result ≡ length (fields_bytes saved.now f) }
{
    2 + field_length(f.first, saved) + field_length(f.second, saved) + field_length(f.third, saved)
}

// Writes a number at an offset and answers the next one.
fn put_number(d: &mut [u8], at: usize, x: Number, saved: &[u8]) -> usize
    requires { at + length (number_bytes saved.now x) ≤ length d.old }
    ensures { Put d.old at (number_bytes saved.now x) result d.new }
{
    match x {
        Number::Unsigned(n) => {
            let next = put_byte(d, at, b' ');
            put_decimal(d, next, n)
        }
        Number::Signed(z) => {
            let next = put_byte(d, at, b' ');
            put_signed(d, next, z)
        }
        Number::Hexadecimal(n) => {
            let next = put_byte(d, at, b' ');
            put_hexadecimal(d, next, front(saved, n))
        }
    }
}

fn put_field(d: &mut [u8], at: usize, x: Option<Number>, saved: &[u8]) -> usize
    requires { at + length (field_bytes saved.now x) ≤ length d.old }
    ensures { Put d.old at (field_bytes saved.now x) result d.new }
{
    match x {
        None => at,
        Some(x) => put_number(d, at, x, saved),
    }
}

pub fn put_fields(d: &mut [u8], f: Fields, saved: &[u8])
    requires { length (fields_bytes saved.now f) ≤ length d.old }
    ensures { d.new ≡ sets d.old 0 (fields_bytes saved.now f) }
{
    let mut at = put_byte(d, 0, f.letter);
    at = put_field(d, at, f.first, saved);
    at = put_field(d, at, f.second, saved);
    at = put_field(d, at, f.third, saved);
    put_byte(d, at, 10);
}
