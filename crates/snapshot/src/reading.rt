// Reading the commands of a snapshot, each finished before the next is looked at.
ghost use Rattle.std.specs.Prelude.{◌≡◌, true, ◌&&◌, ◌+◌, ◌≤◌, length};
ghost use Rattle.state.specs.Rejections.{outcome};
ghost use Rattle.state.specs.Fixed.{in_range};
ghost use Rattle.state.specs.Scores.{score_ok};
ghost use Rattle.state.specs.States.{parameters_code, trend_ok};
ghost use Rattle.layout.specs.Bytes.{unsigned_at, signed_at};
ghost use Rattle.layout.specs.CommandTable.{is_command, model_length, level_length, score_length, season_length};
ghost use Rattle.layout.specs.Layout.{level_at, score_at, season_at, scored_in, model_in, alpha_in, beta_in, gamma_in, phi_in, level_in, trend_in, score_in};
ghost use Rattle.snapshot.specs.Snapshots.{stopped_at, scanned, due_code, model_code, level_code, score_code, season_code, position_code, scan_position, scan_seasons, scan};

use fields::{is_outside, is_scored};
use layout::{
    ALPHA_AT, BETA_AT, GAMMA_AT, LEVEL_AT, LEVEL_VALUE_AT, MODEL_AT, MODEL_BYTE_AT, Opcode,
    PERIOD_AT, PHI_AT, POSITION_LENGTH, READINGS_AT, SCORE_AT, SUM_HIGH_AT, SUM_LOW_AT,
    TREND_VALUE_AT, command_length, is_command, opener, season_at,
};
use models::{model_ok, period_ok};
use operands::{read_i64, read_u32, read_u64};
use ranges::{check_parameters, count_ok, in_range, index_ok, trend_ok, words_ok};
use state::{Rejection, unless};

// The rejection of a stream's snapshot, and the offset of the command that it is of.
#[derive(Clone, Copy, Debug, PartialEq, Eq)]
pub struct Stopped {
    pub rejection: Rejection,
    pub offset: usize,
}

// What rejects the command that is due at an offset, before its operands are looked at.
// By its byte: taken as an Opcode it was tried, and missed the bar of speed (a scan took twice the time: this function was no longer inlined).
fn due(s: &[u8], at: usize, first: u8) -> Result<(), Rejection>
    requires { is_command first ≡ true }
    ensures { result ≡ outcome (due_code s.now at first) }
{
    if s.len() <= at {
        return Err(Rejection::Truncated);
    }
    let b = s[at];
    let left = s.len() - at;
    if b != first {
        unless(!is_command(b), Rejection::OutOfPlace)?;
        return Err(Rejection::UnknownCommand);
    }
    let length = command_length(first)?;
    unless(length <= left, Rejection::Truncated)
}

// The place of what rejects a command.
fn stopped_at(offset: usize, done: Result<(), Rejection>) -> Result<(), Stopped>
    ensures { result ≡ stopped_at offset done }
{
    match done {
        Ok(()) => Ok(()),
        Err(rejection) => Err(Stopped { rejection, offset }),
    }
}

// An operand that is there: a part of its own length lacks no byte, so that no test is left in the compiled code.
fn word_at(s: &[u8], at: usize) -> u64
    requires { at + 8 ≤ length s.now }
    ensures { result ≡ unsigned_at s.now at 8 }
{
    let end = at + 8;
    read_u64(&s[at..end], 0)
}

// And a signed one.
fn value_at(s: &[u8], at: usize) -> i64
    requires { at + 8 ≤ length s.now }
    ensures { result ≡ signed_at s.now at }
{
    let end = at + 8;
    read_i64(&s[at..end], 0)
}

// And one of 32 bits.
fn parameter_at(s: &[u8], at: usize) -> u32
    requires { at + 4 ≤ length s.now }
    ensures { result ≡ unsigned_at s.now at 4 }
{
    let end = at + 4;
    read_u32(&s[at..end], 0)
}

fn check_parameters_at(s: &[u8], outside: bool) -> Result<(), Rejection>
    requires { model_length ≤ length s.now }
    ensures { result ≡ outcome (parameters_code outside (model_in s.now) (alpha_in s.now) (beta_in s.now) (gamma_in s.now) (phi_in s.now)) }
{
    check_parameters(
        outside,
        s[MODEL_BYTE_AT],
        parameter_at(s, ALPHA_AT),
        parameter_at(s, BETA_AT),
        parameter_at(s, GAMMA_AT),
        parameter_at(s, PHI_AT),
    )
}

fn check_model(s: &[u8]) -> Result<(), Rejection>
    ensures { result ≡ outcome (model_code s.now) }
{
    let outside = is_outside(s);
    due(s, MODEL_AT, opener(outside))?;
    let model = s[MODEL_BYTE_AT];
    unless(model_ok(model), Rejection::BadModel)?;
    unless(period_ok(model, s[PERIOD_AT]), Rejection::BadPeriod)?;
    check_parameters_at(s, outside)
}

fn values_at(s: &[u8]) -> bool
    requires { level_at + level_length ≤ length s.now }
    ensures { result ≡ (in_range (level_in s.now) && trend_ok (model_in s.now) (trend_in s.now)) }
{
    in_range(value_at(s, LEVEL_VALUE_AT)) & trend_ok(s[MODEL_BYTE_AT], value_at(s, TREND_VALUE_AT))
}

fn check_level(s: &[u8]) -> Result<(), Rejection>
    ensures { result ≡ outcome (level_code s.now) }
{
    due(s, LEVEL_AT, Opcode::Level as u8)?;
    unless(values_at(s), Rejection::BadValue)
}

fn check_score(s: &[u8]) -> Result<(), Rejection>
    ensures { result ≡ outcome (score_code s.now) }
{
    if is_scored(s) {
        return due(s, SCORE_AT, Opcode::Score as u8);
    }
    Ok(())
}

// A snapshot whose command 15, where it has one, is there to its end: what the commands after it are read in.
#[derive(Clone, Copy)]
struct Body<'a> {
    bytes: &'a [u8],
    scored: bool,
    ghost told: { scored ≡ scored_in bytes.now },
    ghost whole: { scored ≡ true → score_at + score_length ≤ length bytes.now },
}

impl<'a> Body<'a> {
    // What rejects a command 12 that is due. Where the bytes reach past it (`complete`) and its byte is there, no length is left to test.
    fn season_due(self, complete: bool, at: usize) -> Result<(), Rejection>
        requires { complete ≡ true → at + season_length ≤ length self.bytes.now }
        ensures { result ≡ outcome (due_code self.entry.bytes.now at 0x12) }
    {
        if complete && self.bytes[at] == Opcode::Season as u8 {
            return Ok(());
        }
        due(self.bytes, at, Opcode::Season as u8)
    }

    fn check_season(self, complete: bool, k: u8) -> Result<(), Rejection>
        requires { complete ≡ true → season_at self.scored k + season_length ≤ length self.bytes.now }
        ensures { result ≡ outcome (season_code self.entry.bytes.now k) }
    {
        let at = season_at(self.scored, k);
        self.season_due(complete, at)?;
        unless(self.bytes[at + 1] == k, Rejection::WrongIndex)?;
        unless(in_range(value_at(self.bytes, at + 2)), Rejection::BadValue)
    }

    // Check 17: the score of an old snapshot, all 0, passes.
    fn score_ok(self, count: u64) -> bool
        ensures { result ≡ score_ok count (score_in self.entry.bytes.now) }
    {
        if !self.scored {
            return true;
        }
        words_ok(
            count,
            word_at(self.bytes, READINGS_AT),
            word_at(self.bytes, SUM_HIGH_AT),
            word_at(self.bytes, SUM_LOW_AT),
        )
    }

    fn check_position(self, m: u8) -> Result<(), Rejection>
        ensures { result ≡ outcome (position_code self.entry.bytes.now m) }
    {
        let at = season_at(self.scored, m);
        due(self.bytes, at, Opcode::Position as u8)?;
        let count = word_at(self.bytes, at + 2);
        let index = self.bytes[at + 1];
        unless(index_ok(m, index) & count_ok(count), Rejection::BadPosition)?;
        unless(self.score_ok(count), Rejection::BadScore)
    }

    // The command 13, after m places: the offset of what follows.
    fn scan_position(self, m: u8) -> Result<usize, Stopped>
        ensures { result ≡ scanned (scan_position self.entry.bytes.now m) }
    {
        let at = season_at(self.scored, m);
        stopped_at(at, self.check_position(m))?;
        Ok(at + POSITION_LENGTH)
    }

    // The commands 12 for the places 0 to m − 1 rising, and then 13.
    fn scan_seasons(self, m: u8) -> Result<usize, Stopped>
        ensures { result ≡ scanned (scan_seasons self.entry.bytes.now 0 m (scan_position self.entry.bytes.now m)) }
    {
        let end = season_at(self.scored, m);
        let complete = end <= self.bytes.len();
        for k in 0..m {
            stopped_at(season_at(self.scored, k), self.check_season(complete, k))?;
        }
        self.scan_position(m)
    }
}

// A whole snapshot: the offset of what follows it.
pub fn scan(s: &[u8]) -> Result<usize, Stopped>
    ensures { result ≡ scanned (scan s.now) }
{
    stopped_at(MODEL_AT, check_model(s))?;
    stopped_at(LEVEL_AT, check_level(s))?;
    stopped_at(SCORE_AT, check_score(s))?;
    let body = Body {
        bytes: s,
        scored: is_scored(s),
    };
    body.scan_seasons(s[PERIOD_AT])
}
