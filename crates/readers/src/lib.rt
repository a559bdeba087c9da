// Reading as much as there is, over std's readers, which may give it by pieces.
#![tactic(auto)]

ghost use Rattle.std.specs.Prelude.{◌≤◌, length};

use std::io::Read;

// Reads until the buffer is full, the input ends or a read fails, and answers how many bytes it put at the start. Pieces of any size come, so the loop counts bytes and not
// turns; the library's read_exact does not tell how many there were.
pub fn read_full<R: Read>(from: &mut R, buffer: &mut [u8]) -> usize
    ensures { result ≤ length buffer.new }
{
    let mut done = 0;
    while done < buffer.len() {
        let more = read_some(from, &mut buffer[done..]);
        if more == 0 {
            return done;
        }
        done += more;
    }
    done
}

// One read: 0 where nothing came.
fn read_some<R: Read>(from: &mut R, buffer: &mut [u8]) -> usize
    ensures { result ≤ length buffer.new }
{
    match from.read(buffer) {
        Ok(n) => n,
        Err(_) => 0,
    }
}
