// Numbers as text, at an offset of a lent buffer whose room the caller has seen to.
ghost use Rattle.std.specs.Prelude.{◌≡◌, [], ◌∷◌, ◌+◌, ◌*◌, ◌/◌, ◌%◌, ◌≤◌, ◌<◌, nat_abs, length};
ghost use Rattle.std.proofs.lemmas.List.Edits.{sets};
ghost use Rattle.lines.specs.Lines.{digits, digit_count, decimal, signed_decimal, hex_digit, hexadecimal, Put};

// How many decimal digits n has.
pub fn digit_count(n: u64) -> usize
    ensures { (result ≡ digit_count 19 n) × (result ≤ 20) }
{
    n.checked_ilog10().unwrap_or(0) as usize + 1
}

// Writes the k low decimal digits of n, the highest first.
fn put_digits(d: &mut [u8], at: usize, k: usize, n: u64)
    requires { at + k ≤ length d.old }
    ensures { d.new ≡ sets d.old at (digits k n) }
{
    let mut rest = n;
    for i in (0..k).rev() {
        d[at + i] = b'0' + (rest % 10) as u8;
        rest /= 10;
    }
}

pub fn put_byte(d: &mut [u8], at: usize, b: u8) -> usize
    requires { at < length d.old }
    ensures { Put d.old at (b ∷ []) result d.new }
{
    d[at] = b;
    at + 1
}

pub fn put_decimal(d: &mut [u8], at: usize, n: u64) -> usize
    requires { at + length (decimal n) ≤ length d.old }
    ensures { Put d.old at (decimal n) result d.new }
{
    let k = digit_count(n);
    put_digits(d, at, k, n);
    at + k
}

// The number without its sign; the least number has one too.
pub fn magnitude(z: i64) -> u64
    ensures { result ≡ nat_abs z }
{
    z.unsigned_abs()
}

pub fn put_signed(d: &mut [u8], at: usize, z: i64) -> usize
    requires { at + length (signed_decimal z) ≤ length d.old }
    ensures { Put d.old at (signed_decimal z) result d.new }
{
    let n = magnitude(z);
    if z < 0 {
        let next = put_byte(d, at, b'-');
        return put_decimal(d, next, n);
    }
    put_decimal(d, at, n)
}

// By hand: char::from_digit gives a char, of which the byte would have to be taken again.
fn hex_digit(n: u8) -> u8
    requires { n < 16 }
    ensures { result ≡ hex_digit n }
{
    if n < 10 { 48 + n } else { 87 + n }
}

fn put_hex_byte(d: &mut [u8], at: usize, b: u8)
    requires { at + 2 ≤ length d.old }
    ensures { d.new ≡ sets d.old at (hex_digit (b / 16) ∷ hex_digit (b % 16) ∷ []) }
{
    d[at] = hex_digit(b / 16);
    d[at + 1] = hex_digit(b % 16);
}

// Writes bytes in lower-case hexadecimal.
pub fn put_hexadecimal(d: &mut [u8], at: usize, s: &[u8]) -> usize
    requires { at + 2 * length s.now ≤ length d.old }
    ensures { Put d.old at (hexadecimal s.now) result d.new }
{
    for (i, byte) in s.iter().enumerate() {
        put_hex_byte(d, at + 2 * i, *byte);
    }
    at + 2 * s.len()
}
