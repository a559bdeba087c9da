// Writing the commands of a snapshot. Each function needs the room that its caller has made sure of.
ghost use Rattle.std.specs.Prelude.{◌≡◌, true, ◌+◌, ◌≤◌, length};
ghost use Rattle.std.proofs.lemmas.List.Edits.{sets};
ghost use Rattle.layout.specs.CommandTable.{model_length, level_length, score_length, season_length};
ghost use Rattle.layout.specs.Layout.{model_at, level_at, score_at, season_at, size_of};
ghost use Rattle.saving.specs.Encoding.{parameter_bytes, model_bytes, level_bytes, score_bytes, season_bytes, seasons_bytes, position_bytes, encoded};

use super::bytes::{write_byte, write_i64, write_le};
use layout::{
    ALPHA_AT, BETA_AT, GAMMA_AT, LEVEL_AT, LEVEL_VALUE_AT, MODEL_AT, MODEL_BYTE_AT, Opcode,
    PERIOD_AT, PHI_AT, READINGS_AT, SCORE_AT, SUM_HIGH_AT, SUM_LOW_AT, TREND_VALUE_AT, opener,
    season_at,
};
use models::model_byte;
use state::{Score, State};

fn write_parameters(d: &mut [u8], alpha: u32, beta: u32, gamma: u32, phi: u32)
    requires { model_length ≤ length d.old }
    ensures { d.new ≡ sets d.old (model_at + 3) (parameter_bytes alpha beta gamma phi) }
{
    write_le(d, ALPHA_AT, 4, alpha as u64);
    write_le(d, BETA_AT, 4, beta as u64);
    write_le(d, GAMMA_AT, 4, gamma as u64);
    write_le(d, PHI_AT, 4, phi as u64);
}

fn write_model(
    d: &mut [u8],
    outside: bool,
    model: u8,
    period: u8,
    alpha: u32,
    beta: u32,
    gamma: u32,
    phi: u32,
)
    requires { model_length ≤ length d.old }
    ensures { d.new ≡ sets d.old model_at (model_bytes outside model period alpha beta gamma phi) }
{
    let byte = model_byte(model);
    write_byte(d, MODEL_AT, opener(outside));
    write_byte(d, MODEL_BYTE_AT, byte);
    write_byte(d, PERIOD_AT, period);
    write_parameters(d, alpha, beta, gamma, phi);
}

pub fn write_level(d: &mut [u8], level: i64, trend: i64)
    requires { level_at + level_length ≤ length d.old }
    ensures { d.new ≡ sets d.old level_at (level_bytes level trend) }
{
    write_byte(d, LEVEL_AT, Opcode::Level as u8);
    write_i64(d, LEVEL_VALUE_AT, level);
    write_i64(d, TREND_VALUE_AT, trend);
}

pub fn write_score(d: &mut [u8], s: Score)
    requires { score_at + score_length ≤ length d.old }
    ensures { d.new ≡ sets d.old score_at (score_bytes s) }
{
    write_byte(d, SCORE_AT, Opcode::Score as u8);
    write_le(d, READINGS_AT, 8, s.readings);
    write_le(d, SUM_HIGH_AT, 8, s.high);
    write_le(d, SUM_LOW_AT, 8, s.low);
}

// The command 12 of index k.
pub fn write_season(d: &mut [u8], k: u8, v: i64)
    requires { season_at true k + season_length ≤ length d.old }
    ensures { d.new ≡ sets d.old (season_at true k) (season_bytes k v) }
{
    let at = season_at(true, k);
    write_byte(d, at, Opcode::Season as u8);
    write_byte(d, at + 1, k);
    write_i64(d, at + 2, v);
}

// The commands 12 for the places 0 to m − 1 rising.
fn write_seasons(d: &mut [u8], m: u8, cells: &[i64; 48])
    requires { (m ≤ 48) × (season_at true m ≤ length d.old) }
    ensures { d.new ≡ sets d.old (season_at true 0) (seasons_bytes cells.now m) }
{
    for k in 0..m {
        write_season(d, k, cells[k as usize]);
    }
}

// The command 13, after m places.
pub fn write_position(d: &mut [u8], m: u8, index: u8, count: u64)
    requires { size_of m ≤ length d.old }
    ensures { d.new ≡ sets d.old (season_at true m) (position_bytes index count) }
{
    let at = season_at(true, m);
    write_byte(d, at, Opcode::Position as u8);
    write_byte(d, at + 1, index);
    write_le(d, at + 2, 8, count);
}

// The snapshot of a state.
pub fn write_snapshot(d: &mut [u8], s: State)
    requires { (s.period ≤ 48) × (size_of s.period ≤ length d.old) }
    ensures { d.new ≡ sets d.old model_at (encoded s) }
{
    write_model(
        d, s.outside, s.model, s.period, s.alpha, s.beta, s.gamma, s.phi,
    );
    write_level(d, s.level, s.trend);
    write_score(d, s.score);
    write_seasons(d, s.period, &s.seasonal);
    write_position(d, s.period, s.index, s.count);
}
