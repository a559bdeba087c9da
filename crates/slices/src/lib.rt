// A lent slice that holds one snapshot and nothing after it, but for the room that an old one leaves: document 01, "Commands", and document 02, W-204.
#![tactic(auto)]

ghost use Rattle.std.specs.Prelude.{◌≡◌, cond, eqb, pos};
ghost use Rattle.state.specs.Rejections.{outcome};
ghost use Rattle.layout.specs.Layout.{scored_in, period_in, season_in, index_in};
ghost use Rattle.snapshot.specs.Facts.{Room};
ghost use Rattle.slices.specs.Slices.{spare, in_place_code, in_place_read, checked_in, opened_in, season_value, score_value, state_value};

use fields::{is_scored, season_in, state_at};
use layout::{
    ALPHA_AT, BETA_AT, GAMMA_AT, LEVEL_VALUE_AT, MODEL_AT, MODEL_BYTE_AT, PERIOD_AT, PHI_AT,
    POSITION_LENGTH, READINGS_AT, SCORE_AT, SCORE_LENGTH, SEASON_LENGTH, SUM_HIGH_AT, SUM_LOW_AT,
    TREND_VALUE_AT, season_at,
};
use models::{MAX_PERIOD, ties_to_even};
use operands::{byte_at, read_i64, read_u32, read_u64};
use snapshot::{Opened, scan};
use state::{Numbers, Rejection, Score, State, no_score, no_state, unless};

// What a call on a lent slice goes by: the numbers of its snapshot, the season value being the one due.
#[derive(Clone, Copy)]
pub struct Checked {
    // Whether the snapshot has command 15.
    pub scored: bool,
    // The rounding rule: whether ties go to the even number, else up.
    pub even: bool,
    pub period: u8,
    pub index: u8,
    pub numbers: Numbers,
}

// The bytes after a snapshot that are not looked at.
fn spare(scored: bool) -> usize
    ensures { result ≡ spare scored }
{
    if scored { 0 } else { SCORE_LENGTH }
}

// The slice holds one snapshot: its own rejection, then 3 for bytes after it, more than 25 of them where it is an old one.
pub fn check_slice(snapshot: &[u8]) -> Result<(), Rejection>
    ensures { result ≡ outcome (in_place_code snapshot.now) }
{
    match scan(snapshot) {
        Ok(end) => {
            let left = snapshot.len() - end;
            unless(left <= spare(is_scored(snapshot)), Rejection::OutOfPlace)
        }
        Err(stopped) => Err(stopped.rejection),
    }
}

// The season value that is due in an accepted snapshot, 0 without season.
fn season_due(s: &[u8], scored: bool, m: u8, p: u8) -> i64
    requires { (scored ≡ scored_in s.now) × Room scored s.now m p }
    ensures { result ≡ cond (eqb m 0) (pos 0) (season_in s.now p) }
{
    if m == 0 {
        return 0;
    }
    let at = season_at(scored, p);
    let from = at + 2;
    let end = at + SEASON_LENGTH;
    read_i64(&s[from..end], 0)
}

// The numbers of an accepted snapshot, read from parts of a length that the compiler knows, so that it leaves no test of them.
fn checked_at(s: &[u8]) -> Checked
    requires { Room (scored_in s.now) s.now (period_in s.now) (index_in s.now (period_in s.now)) }
    ensures { result ≡ checked_in s.now }
{
    let scored = is_scored(s);
    let period = s[PERIOD_AT];
    let at = season_at(scored, period);
    let index = s[at + 1];
    let head = &s[MODEL_AT..SCORE_AT];
    let from = at + 2;
    let end = at + POSITION_LENGTH;
    Checked {
        scored,
        even: ties_to_even(s[MODEL_BYTE_AT]),
        period,
        index,
        numbers: Numbers {
            alpha: read_u32(head, ALPHA_AT),
            beta: read_u32(head, BETA_AT),
            gamma: read_u32(head, GAMMA_AT),
            phi: read_u32(head, PHI_AT),
            level: read_i64(head, LEVEL_VALUE_AT),
            trend: read_i64(head, TREND_VALUE_AT),
            season: season_due(s, scored, period, index),
            count: read_u64(&s[from..end], 0),
        },
    }
}

// The numbers that a call goes by.
pub fn slice_numbers(snapshot: &[u8]) -> Result<Checked, Rejection>
    ensures { result ≡ opened_in snapshot.now }
{
    check_slice(snapshot)?;
    Ok(checked_at(snapshot))
}

// The state that the slice holds.
pub fn read(snapshot: &[u8]) -> Opened
    ensures { result ≡ in_place_read snapshot.now }
{
    let outcome = check_slice(snapshot);
    let state = if outcome.is_ok() {
        state_at(snapshot)
    } else {
        no_state()
    };
    Opened { outcome, state }
}

// The season value of index k; 4 where the slice ends before or inside its command.
pub fn season_value(snapshot: &[u8], k: u8) -> Result<i64, Rejection>
    ensures { result ≡ season_value snapshot.now k }
{
    let scored = is_scored(snapshot);
    let end = season_at(scored, k) + SEASON_LENGTH;
    unless(end <= snapshot.len(), Rejection::Truncated)?;
    Ok(season_in(snapshot, scored, k))
}

// The score; all 0 where there is no command 15 or the slice ends inside it.
pub fn score_value(snapshot: &[u8]) -> Score
    ensures { result ≡ score_value snapshot.now }
{
    if snapshot.len() < SCORE_AT + SCORE_LENGTH {
        return no_score();
    }
    if !is_scored(snapshot) {
        return no_score();
    }
    Score {
        readings: read_u64(snapshot, READINGS_AT),
        high: read_u64(snapshot, SUM_HIGH_AT),
        low: read_u64(snapshot, SUM_LOW_AT),
    }
}

// The state of the bytes as they stand, where they reach to the end of a snapshot; none of its numbers is checked.
pub fn state_value(snapshot: &[u8]) -> State
    ensures { result ≡ state_value snapshot.now }
{
    let m = byte_at(snapshot, PERIOD_AT);
    if MAX_PERIOD < m {
        return no_state();
    }
    let scored = is_scored(snapshot);
    if snapshot.len() < season_at(scored, m) + POSITION_LENGTH {
        return no_state();
    }
    state_at(snapshot)
}
