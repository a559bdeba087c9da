// The commands of a stream, where each of a snapshot stands, and how long a snapshot is: document 01, "Commands". These numbers stand nowhere else.
#![tactic(auto)]

pub mod promises;
mod table;

ghost use Rattle.std.specs.Prelude.{◌≡◌, ◌≤◌};
ghost use Rattle.layout.specs.Layout.{score_size, season_at, size_of};

use models::MAX_PERIOD;
pub use table::{
    Entry, Opcode, POSITION_LENGTH, SCORE_LENGTH, SEASON_LENGTH, command_length, entry_of,
    is_command, only_in_snapshot, opener, opens,
};
use table::{LEVEL_LENGTH, MODEL_LENGTH};

pub const MODEL_AT: usize = 0;

pub const LEVEL_AT: usize = MODEL_AT + MODEL_LENGTH;

// The command 15, which snapshots saved before it have not.
pub const SCORE_AT: usize = LEVEL_AT + LEVEL_LENGTH;

// The operands of 10 or 18, of 11, and of 15.
pub const MODEL_BYTE_AT: usize = MODEL_AT + 1;

pub const PERIOD_AT: usize = MODEL_AT + 2;

pub const ALPHA_AT: usize = MODEL_AT + 3;

pub const BETA_AT: usize = MODEL_AT + 7;

pub const GAMMA_AT: usize = MODEL_AT + 11;

pub const PHI_AT: usize = MODEL_AT + 15;

pub const LEVEL_VALUE_AT: usize = LEVEL_AT + 1;

pub const TREND_VALUE_AT: usize = LEVEL_AT + 9;

pub const READINGS_AT: usize = SCORE_AT + 1;

pub const SUM_HIGH_AT: usize = SCORE_AT + 9;

pub const SUM_LOW_AT: usize = SCORE_AT + 17;

// The bytes of the command 15 in a snapshot with (scored) or without it.
fn score_size(scored: bool) -> usize
    ensures value { result ≡ score_size scored }
    ensures bound { result ≤ 25 }
{
    if scored { SCORE_LENGTH } else { 0 }
}

// The command 12 of index k in a snapshot with or without command 15; of k = m, the command 13.
pub fn season_at(scored: bool, k: u8) -> usize
    ensures { result ≡ season_at scored k }
{
    SCORE_AT + score_size(scored) + SEASON_LENGTH * (k as usize)
}

// The commands of every snapshot that is saved, 10 or 18, 11, 15 and 13: its length without season values.
const FIXED_LENGTH: usize = SCORE_AT + SCORE_LENGTH + POSITION_LENGTH;

// The length of the longest snapshot.
pub const MAX_SIZE: usize = FIXED_LENGTH + SEASON_LENGTH * (MAX_PERIOD as usize);

// The length of a saved snapshot with m season values.
pub fn size_of(m: u8) -> usize
    ensures { result ≡ size_of m }
{
    FIXED_LENGTH + SEASON_LENGTH * (m as usize)
}
