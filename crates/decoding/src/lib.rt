// The command at an offset of a stream: document 01, "Commands" and "Refusals, in checking order".
#![tactic(auto)]

mod reading;

ghost use Rattle.std.specs.Prelude.{◌≡◌, ◌<◌, length, get_or};
ghost use Rattle.state.specs.Rejections.{gives};
ghost use Rattle.layout.specs.CommandTable.{command_size};
ghost use Rattle.decoding.specs.Decoding.{allowed_here, command_code, decode};

use layout::{Opcode, command_length, only_in_snapshot, opens};
use models::errors_are;
use reading::command_at;
use state::{Rejection, unless};

#[derive(Clone, Copy)]
pub enum Command {
    // No command: the stream ends.
    End,
    Open,
    Reading(i32),
    Missing,
    Forecast(u32),
    Variance { horizon: u32, sigma2: u32 },
    Save,
    // By 2, 3 or 4.
    Rejected(Rejection),
    SwitchToEven,
    // By the 64 bits of its σ².
    RelativeVariance { horizon: u32, sigma2: u64 },
    // 50 and 51 (document 02, W-209), by their name.
    Store(u8),
    Restore(u8),
}

// A command, and the offset after it.
#[derive(Clone, Copy)]
pub struct Decoded {
    pub command: Command,
    pub next: usize,
}

// A command's place outside a snapshot: 31 is for additive errors, 32 for multiplicative ones.
fn allowed_here(b: u8, active: bool, model: u8) -> bool
    ensures { result ≡ allowed_here b active model }
{
    let relative = b == Opcode::RelativeVariance as u8;
    let variance = (b == Opcode::Variance as u8) | relative;
    let fits = !variance | errors_are(relative, model);
    !only_in_snapshot(b) & (active | opens(b)) & fits
}

// What rejects the command at an offset that the stream has, or its length.
fn check_command(s: &[u8], at: usize, active: bool, model: u8) -> Result<usize, Rejection>
    requires { at < length s.now }
    ensures { result ≡ gives (command_code s.now at active model) (command_size (get_or s.now at 0)) }
{
    let b = s[at];
    let size = command_length(b)?;
    unless(allowed_here(b, active, model), Rejection::OutOfPlace)?;
    unless(size <= s.len() - at, Rejection::Truncated)?;
    Ok(size)
}

// The command at an offset, where a state is open or not, with its model byte.
pub fn decode(s: &[u8], at: usize, active: bool, model: u8) -> Decoded
    ensures { result ≡ decode s.now at active model }
{
    if s.len() <= at {
        return Decoded {
            command: Command::End,
            next: at,
        };
    }
    match check_command(s, at, active, model) {
        Ok(size) => Decoded {
            command: command_at(s, at),
            next: at + size,
        },
        Err(rejection) => Decoded {
            command: Command::Rejected(rejection),
            next: at,
        },
    }
}
