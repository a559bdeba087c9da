// The commands: first byte, length with the operands, and whether only a snapshot holds it.
ghost use Rattle.std.specs.Prelude.{◌≡◌, Some};
ghost use Rattle.layout.specs.CommandTable.{Decodes, byte_of, entry_of, command_size, is_command, only_in_snapshot, opener, opens, command_length};

use state::Rejection;

pub const MODEL_LENGTH: usize = 19;

pub const LEVEL_LENGTH: usize = 17;

pub const SCORE_LENGTH: usize = 25;

pub const SEASON_LENGTH: usize = 10;

pub const POSITION_LENGTH: usize = 10;

// The commands, each by its first byte.
#[derive(Clone, Copy, Debug, PartialEq, Eq)]
pub enum Opcode {
    Open = 0x10,
    Level = 0x11,
    Season = 0x12,
    Position = 0x13,
    SwitchToEven = 0x14,
    Score = 0x15,
    OpenOutside = 0x18,
    Reading = 0x20,
    Missing = 0x21,
    Forecast = 0x30,
    Variance = 0x31,
    RelativeVariance = 0x32,
    Save = 0x40,
    Store = 0x50,
    Restore = 0x51,
}

impl TryFrom<u8> for Opcode {
    type Error = Rejection;

    ghost try_from_gives = { Decodes };

    fn try_from(b: u8) -> Result<Self, Rejection> {
        match b {
            0x10 => Ok(Opcode::Open),
            0x11 => Ok(Opcode::Level),
            0x12 => Ok(Opcode::Season),
            0x13 => Ok(Opcode::Position),
            0x14 => Ok(Opcode::SwitchToEven),
            0x15 => Ok(Opcode::Score),
            0x18 => Ok(Opcode::OpenOutside),
            0x20 => Ok(Opcode::Reading),
            0x21 => Ok(Opcode::Missing),
            0x30 => Ok(Opcode::Forecast),
            0x31 => Ok(Opcode::Variance),
            0x32 => Ok(Opcode::RelativeVariance),
            0x40 => Ok(Opcode::Save),
            0x50 => Ok(Opcode::Store),
            0x51 => Ok(Opcode::Restore),
            _ => Err(Rejection::UnknownCommand),
        }
    }
}

impl Opcode {
    // The length with the operands.
    fn length(self) -> usize
        ensures { result ≡ command_size (byte_of self) }
    {
        match self {
            Opcode::Open | Opcode::OpenOutside => MODEL_LENGTH,
            Opcode::Level => LEVEL_LENGTH,
            Opcode::Season => SEASON_LENGTH,
            Opcode::Position => POSITION_LENGTH,
            Opcode::Score => SCORE_LENGTH,
            Opcode::SwitchToEven | Opcode::Missing | Opcode::Save => 1,
            Opcode::Store | Opcode::Restore => 2,
            Opcode::Forecast => 3,
            Opcode::Reading => 5,
            Opcode::Variance => 7,
            Opcode::RelativeVariance => 11,
        }
    }

    // Whether only a snapshot holds it.
    fn only_in_snapshot(self) -> bool
        ensures { result ≡ only_in_snapshot (byte_of self) }
    {
        matches!(
            self,
            Opcode::Level | Opcode::Season | Opcode::Position | Opcode::Score
        )
    }
}

// A command's length, and whether only a snapshot holds it.
#[derive(Clone, Copy)]
pub struct Entry {
    pub length: usize,
    pub only_in_snapshot: bool,
}

// The table's row of a byte; none where it begins no command.
pub fn entry_of(b: u8) -> Option<Entry>
    ensures { result ≡ entry_of b }
{
    match Opcode::try_from(b) {
        Ok(command) => Some(Entry {
            length: command.length(),
            only_in_snapshot: command.only_in_snapshot(),
        }),
        Err(_) => None,
    }
}

// The command that opens a snapshot: 18 for gains outside the usual region, else 10.
pub fn opener(outside: bool) -> u8
    ensures { result ≡ opener outside }
{
    if outside {
        Opcode::OpenOutside as u8
    } else {
        Opcode::Open as u8
    }
}

// Whether a byte begins a snapshot.
pub fn opens(b: u8) -> bool
    ensures { result ≡ opens b }
{
    (b == Opcode::Open as u8) | (b == Opcode::OpenOutside as u8)
}

pub fn is_command(b: u8) -> bool
    ensures { result ≡ is_command b }
{
    Opcode::try_from(b).is_ok()
}

pub fn only_in_snapshot(b: u8) -> bool
    ensures { result ≡ only_in_snapshot b }
{
    entry_of(b).is_some_and(|e| e.only_in_snapshot)
}

// The length of the command that a byte begins.
pub fn command_length(b: u8) -> Result<usize, Rejection>
    ensures { result ≡ command_length b }
{
    Ok(Opcode::try_from(b)?.length())
}
