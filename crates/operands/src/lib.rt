// Operands of fixed width at an offset of a byte string, low byte first, signed ones in two's complement: document 01, "Commands".
// Every offset has an answer: what stands after the end counts as 0.
#![tactic(auto)]

ghost use Rattle.std.specs.Prelude.{◌≡◌, ◌^◌, ◌≤◌, ◌<◌, length, get_or};
ghost use Rattle.std.specs.Int.{w32};
ghost use Rattle.std.proofs.Common.{to_z};
ghost use Rattle.layout.specs.Bytes.{from_bytes, unsigned_at, signed_at};

use integers::to_i64;

// The number of up to 8 bytes.
fn number_of(bytes: &[u8]) -> u64
    requires { length bytes.now ≤ 8 }
    ensures value { result ≡ from_bytes bytes.now }
    ensures small { result < 256 ^ length bytes.now }
{
    let mut number = 0;
    for byte in bytes.iter().rev() {
        number = number * 256 + *byte as u64;
    }
    number
}

// The operand of k bytes, or the number of those that are there.
fn read_le(s: &[u8], at: usize, k: usize) -> u64
    requires { k ≤ 8 }
    ensures value { result ≡ unsigned_at s.now at k }
    ensures small { result < 256 ^ k }
{
    let Some(rest) = s.get(at..) else {
        return 0;
    };
    match rest.get(..k) {
        Some(bytes) => number_of(bytes),
        None => number_of(rest),
    }
}

pub fn byte_at(s: &[u8], at: usize) -> u8
    ensures { result ≡ get_or s.now at 0 }
{
    s.get(at).copied().unwrap_or(0)
}

pub fn read_u16(s: &[u8], at: usize) -> u16
    ensures { result ≡ unsigned_at s.now at 2 }
{
    read_le(s, at, 2) as u16
}

pub fn read_u32(s: &[u8], at: usize) -> u32
    ensures { result ≡ unsigned_at s.now at 4 }
{
    read_le(s, at, 4) as u32
}

pub fn read_u64(s: &[u8], at: usize) -> u64
    ensures { result ≡ unsigned_at s.now at 8 }
{
    read_le(s, at, 8)
}

pub fn read_i32(s: &[u8], at: usize) -> i32
    ensures { result ≡ to_z w32 (unsigned_at s.now at 4) }
{
    to_i32(read_u32(s, at))
}

pub fn read_i64(s: &[u8], at: usize) -> i64
    ensures { result ≡ signed_at s.now at }
{
    to_i64(read_u64(s, at))
}

// The number that 32 bits stand for in two's complement.
fn to_i32(n: u32) -> i32
    ensures { result ≡ to_z w32 n }
{
    n.cast_signed()
}
