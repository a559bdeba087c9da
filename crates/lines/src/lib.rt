// The program's lines, each in a lent buffer: document 01, "The program's lines".
#![tactic(auto)]

mod digits;
mod fields;
pub mod promises;

ghost use Rattle.std.specs.Prelude.{◌≡◌, length};
ghost use Rattle.lines.specs.Lines.{write_line, line_bytes};

pub use digits::magnitude;
use fields::{fields_length, put_fields};
use replies::{Reply, fields_of};
use state::{Rejection, unless};

// Writes a reply's line at the start of a buffer, and answers its length; a rejected call writes nothing. Of the bytes saved a save's line shows as many as its reply says.
pub fn write_line(reply: Reply, saved: &[u8], d: &mut [u8]) -> Result<usize, Rejection>
    ensures answer { result ≡ write_line reply saved.now (length d.old) }
    ensures bytes { d.new ≡ line_bytes reply saved.now d.old }
{
    match fields_of(reply) {
        None => Ok(0),
        Some(f) => {
            let n = fields_length(f, saved);
            unless(n <= d.len(), Rejection::ShortBuffer)?;
            put_fields(d, f, saved);
            Ok(n)
        }
    }
}
