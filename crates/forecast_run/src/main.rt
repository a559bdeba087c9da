// forecast-run: reads a stream of commands from standard input and prints the line of each.
#![tactic(auto)]

use console::play;
use readers::read_full;
use streams::INPUT_LIMIT;

fn main(rt: HostRuntime) {
    // One byte more than the longest stream, so that a longer input is seen to be one.
    let mut bytes = [0u8; INPUT_LIMIT + 1];
    let n = read_full(&mut rt.stdin(), &mut bytes);
    play(&mut rt.stdout(), &bytes[..n]);
}
