// The operands of a command, read where they stand.
ghost use Rattle.std.specs.Prelude.{◌≡◌, ◌<◌, length, get_or};
ghost use Rattle.layout.specs.CommandTable.{byte_of};
ghost use Rattle.decoding.specs.Decoding.{operands};

use super::Command;
use layout::Opcode;
use operands::{byte_at, read_i32, read_u16, read_u32, read_u64};

// The command of the first byte at an offset, with its operands.
pub fn command_at(s: &[u8], at: usize) -> Command
    requires { at < length s.now }
    ensures { result ≡ operands s.now at }
{
    match Opcode::try_from(s[at]) {
        Ok(first) => command_of(first, s, at),
        Err(_) => Command::Save,
    }
}

// Those of a snapshot alone are rejected before.
fn command_of(first: Opcode, s: &[u8], at: usize) -> Command
    requires { (at < length s.now) × (byte_of first ≡ get_or s.now at 0) }
    ensures { result ≡ operands s.now at }
{
    match first {
        Opcode::Open | Opcode::OpenOutside => Command::Open,
        Opcode::Reading => Command::Reading(read_i32(s, at + 1)),
        Opcode::Missing => Command::Missing,
        Opcode::Forecast => Command::Forecast(read_u16(s, at + 1) as u32),
        Opcode::Variance => Command::Variance {
            horizon: read_u16(s, at + 1) as u32,
            sigma2: read_u32(s, at + 3),
        },
        Opcode::RelativeVariance => Command::RelativeVariance {
            horizon: read_u16(s, at + 1) as u32,
            sigma2: read_u64(s, at + 3),
        },
        Opcode::SwitchToEven => Command::SwitchToEven,
        Opcode::Store => Command::Store(byte_at(s, at + 1)),
        Opcode::Restore => Command::Restore(byte_at(s, at + 1)),
        Opcode::Save | Opcode::Level | Opcode::Season | Opcode::Position | Opcode::Score => {
            Command::Save
        }
    }
}
