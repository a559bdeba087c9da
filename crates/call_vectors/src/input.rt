// The numbers of the records, one after the other, low byte first; 0 where the input has ended.
use readers::read_full;
use state::{Score, State};
use std::io::Stdin;

fn next_bytes<const N: usize>(mut from: Stdin) -> [u8; N] {
    let mut bytes = [0u8; N];
    read_full(&mut from, &mut bytes);
    bytes
}

pub fn next_byte(from: Stdin) -> u8 {
    u8::from_le_bytes(next_bytes(from))
}

pub fn next_u32(from: Stdin) -> u32 {
    u32::from_le_bytes(next_bytes(from))
}

// A length, of 32 bits.
pub fn next_size(from: Stdin) -> usize {
    next_u32(from) as usize
}

pub fn next_u64(from: Stdin) -> u64 {
    u64::from_le_bytes(next_bytes(from))
}

pub fn next_i32(from: Stdin) -> i32 {
    i32::from_le_bytes(next_bytes(from))
}

pub fn next_i64(from: Stdin) -> i64 {
    i64::from_le_bytes(next_bytes(from))
}

// The first cells of a slice, all where it has no more.
pub fn first<T>(cells: &mut [T], n: usize) -> &mut [T] {
    let end = n.min(cells.len());
    &mut cells[..end]
}

// So many numbers, or as many as there is room for.
pub fn next_all<T: Drop, F: Fn(Stdin) -> T>(
    from: Stdin,
    space: &mut [T],
    n: usize,
    next: F,
) -> &mut [T]
    requires { F.IsAlwaysCallable next }
{
    let cells = first(space, n);
    for cell in cells.iter_mut() {
        *cell = next(from);
    }
    cells
}

// The season cells of a record, and 0 after them.
fn next_season(from: Stdin) -> [i64; 48] {
    let mut cells = [0i64; 48];
    next_all(from, &mut cells, next_size(from), next_i64);
    cells
}

fn next_score(from: Stdin) -> Score {
    Score {
        readings: next_u64(from),
        high: next_u64(from),
        low: next_u64(from),
    }
}

// A state as it stands, whatever its numbers.
pub fn next_state(from: Stdin) -> State {
    let seasonal = next_season(from);
    State {
        outside: next_byte(from) != 0,
        model: next_byte(from),
        period: next_byte(from),
        alpha: next_u32(from),
        beta: next_u32(from),
        gamma: next_u32(from),
        phi: next_u32(from),
        level: next_i64(from),
        trend: next_i64(from),
        seasonal,
        index: next_byte(from),
        count: next_u64(from),
        score: next_score(from),
    }
}
