// The numbers of a snapshot, each read where it stands, in bytes of any length: document 01, "Commands". What stands after the end counts as 0.
#![tactic(auto)]

ghost use Rattle.std.specs.Prelude.{◌≡◌, ◌+◌, ◌≤◌, pos, length, replicate};
ghost use Rattle.layout.specs.Bytes.{signed_at};
ghost use Rattle.layout.specs.CommandTable.{season_length};
ghost use Rattle.layout.specs.Layout.{season_at, outside_in, scored_in, score_in};
ghost use Rattle.fields.specs.Fields.{cells_at, decoded};

use layout::{
    ALPHA_AT, BETA_AT, GAMMA_AT, LEVEL_VALUE_AT, MODEL_AT, MODEL_BYTE_AT, Opcode, PERIOD_AT,
    PHI_AT, READINGS_AT, SCORE_AT, SEASON_LENGTH, SUM_HIGH_AT, SUM_LOW_AT, TREND_VALUE_AT, opener,
    season_at,
};
use models::MAX_PERIOD;
use operands::{byte_at, read_i64, read_u32, read_u64};
use state::{Score, State, no_score};

// Whether the bytes begin with 18.
pub fn is_outside(s: &[u8]) -> bool
    ensures { result ≡ outside_in s.now }
{
    byte_at(s, MODEL_AT) == opener(true)
}

// Whether the bytes have the command 15.
pub fn is_scored(s: &[u8]) -> bool
    ensures { result ≡ scored_in s.now }
{
    byte_at(s, SCORE_AT) == Opcode::Score as u8
}

// The bytes of a snapshot, and whether they have the command 15, looked at once.
#[derive(Clone, Copy)]
struct Snapshot<'a> {
    bytes: &'a [u8],
    scored: bool,
    ghost told: { scored ≡ scored_in bytes.now },
}

impl<'a> Snapshot<'a> {
    fn new(bytes: &'a [u8]) -> Snapshot<'a>
        ensures { result.bytes.now ≡ bytes.now }
    {
        Snapshot {
            bytes,
            scored: is_scored(bytes),
        }
    }

    // The score, all 0 without command 15.
    fn score(self) -> Score
        ensures { result ≡ score_in self.entry.bytes.now }
    {
        if !self.scored {
            return no_score();
        }
        Score {
            readings: read_u64(self.bytes, READINGS_AT),
            high: read_u64(self.bytes, SUM_HIGH_AT),
            low: read_u64(self.bytes, SUM_LOW_AT),
        }
    }

    // The cells of a state, which has 48 places: what stands for a later one changes none. Where all are there, the compiled loop has no test of the length.
    fn read_cells(self, m: u8, cells: &mut [i64; 48])
        requires { cells.old ≡ replicate 48 (pos 0) }
        ensures { cells.new ≡ cells_at self.entry.bytes.now m }
    {
        let n = m.min(MAX_PERIOD);
        let whole = season_at(self.scored, n) <= self.bytes.len();
        for k in 0..n {
            cells[k as usize] = if whole {
                whole_season(self.bytes, self.scored, k)
            } else {
                season_in(self.bytes, self.scored, k)
            };
        }
    }
}

// The season value of index k in a snapshot with or without command 15.
pub fn season_in(s: &[u8], scored: bool, k: u8) -> i64
    ensures { result ≡ signed_at s.now (season_at scored k + 2) }
{
    if s.len() < season_at(scored, k) + SEASON_LENGTH {
        return read_i64(s, season_at(scored, k) + 2);
    }
    whole_season(s, scored, k)
}

// The same of one that is there: a part of its own length lacks no byte, so that no test is left in the compiled code.
fn whole_season(s: &[u8], scored: bool, k: u8) -> i64
    requires { season_at scored k + season_length ≤ length s.now }
    ensures { result ≡ signed_at s.now (season_at scored k + 2) }
{
    let at = season_at(scored, k);
    let from = at + 2;
    let end = at + SEASON_LENGTH;
    read_i64(&s[from..end], 0)
}

// The state that the bytes hold.
pub fn state_at(s: &[u8]) -> State
    ensures { result ≡ decoded s.now }
{
    let snapshot = Snapshot::new(s);
    let period = byte_at(s, PERIOD_AT);
    let at = season_at(snapshot.scored, period);
    let mut state = State {
        outside: is_outside(s),
        model: byte_at(s, MODEL_BYTE_AT),
        period,
        alpha: read_u32(s, ALPHA_AT),
        beta: read_u32(s, BETA_AT),
        gamma: read_u32(s, GAMMA_AT),
        phi: read_u32(s, PHI_AT),
        level: read_i64(s, LEVEL_VALUE_AT),
        trend: read_i64(s, TREND_VALUE_AT),
        seasonal: [0; 48],
        index: byte_at(s, at + 1),
        count: read_u64(s, at + 2),
        score: snapshot.score(),
    };
    snapshot.read_cells(period, &mut state.seasonal);
    state
}
