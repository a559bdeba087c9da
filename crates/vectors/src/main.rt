// Plays many stored streams: the records of the file that the argument names, as tests/second/streams.py writes them.
// A record is a kind, a length of 32 bits with the low byte first, and a stream; kind 1 is played cut after each byte.
#![tactic(auto)]

use readers::read_full;
use std::fs::File;
use std::io::{ErrorKind, Stdout};
use std::{env, io};
use streams::INPUT_LIMIT;

// More records than any file of streams has, so that the program ends.
const MAX_RECORDS: usize = 100000;

// The next bytes of the file, where it has so many.
fn next_bytes<const N: usize>(from: &mut File) -> Option<[u8; N]> {
    let mut bytes = [0u8; N];
    (read_full(from, &mut bytes) == N).then_some(bytes)
}

fn play_cut(out: &mut Stdout, s: &[u8]) {
    for end in 0..s.len() {
        console::play(out, &s[..end]);
    }
}

// Plays a stream that fills the buffer, where there is one.
fn play_stream(from: &mut File, out: &mut Stdout, cut: bool, buffer: &mut [u8]) -> Option<()> {
    if read_full(from, buffer) < buffer.len() {
        return None;
    }
    if cut {
        play_cut(out, buffer);
    }
    console::play(out, buffer);
    Some(())
}

// Plays one record, where there is one.
fn play_next(from: &mut File, out: &mut Stdout) -> Option<()> {
    let [kind] = next_bytes::<1>(from)?;
    let n = u32::from_le_bytes(next_bytes(from)?) as usize;
    let mut buffer = [0u8; INPUT_LIMIT + 1];
    play_stream(from, out, kind == 1, buffer.get_mut(..n)?)
}

// Without an argument, or where its file does not open, the program ends with an error.
fn main(rt: HostRuntime) -> io::Result<()> {
    let Some(path) = env::args(&rt)?.nth(1) else {
        return Err(io::Error::from(ErrorKind::InvalidInput));
    };
    let mut from = File::open(&rt, path)?;
    let mut out = rt.stdout();
    for _ in 0..MAX_RECORDS {
        if play_next(&mut from, &mut out).is_none() {
            break;
        }
    }
    Ok(())
}
