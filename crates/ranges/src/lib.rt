// The tests that the checks of a state are made of, each of a number, a parameter or a position.
#![tactic(auto)]

ghost use Rattle.std.specs.Prelude.{◌≡◌};
ghost use Rattle.state.specs.Rejections.{outcome};
ghost use Rattle.state.specs.Fixed.{is_reading, is_residual, is_sentinel, in_range, is_zero};
ghost use Rattle.state.specs.Scores.{score_of, sum_ok, score_ok};
ghost use Rattle.state.specs.States.{parameters_code, trend_ok, cell_ok, index_ok, count_ok};

use models::{has_trend, parameters_ok, pick, usual_gains};
use state::{MAX_COUNT, MAX_VALUE, Rejection, Score, unless};

pub fn is_reading(y: i32) -> bool
    ensures { result ≡ is_reading y }
{
    (-1_000_000 <= y) & (y <= 1_000_000)
}

// A residual that a reading can have: at most 65536 × 1,000,000 and three values of 2^40 each.
pub fn is_residual(e: i64) -> bool
    ensures { result ≡ is_residual e }
{
    (-3_364_070_883_328 <= e) & (e <= 3_364_070_883_328)
}

// Document 01's mark: a missing reading in a slice.
pub fn is_sentinel(y: i32) -> bool
    ensures { result ≡ is_sentinel y }
{
    y == -2_147_483_648
}

pub fn in_range(v: i64) -> bool
    ensures { result ≡ in_range v }
{
    (-MAX_VALUE <= v) & (v <= MAX_VALUE)
}

fn is_zero(v: i64) -> bool
    ensures { result ≡ is_zero v }
{
    v == 0
}

// The parameters: what the model allows, and the usual region, in which 10 opens a state and 18 does not.
pub fn check_parameters(
    outside: bool,
    model: u8,
    a: u32,
    b: u32,
    g: u32,
    f: u32,
) -> Result<(), Rejection>
    ensures { result ≡ outcome (parameters_code outside model a b g f) }
{
    let usual = usual_gains(a, b, g);
    let allowed = parameters_ok(model, a, b, g, f) & !(outside & usual);
    unless(allowed, Rejection::BadParameter)?;
    unless(outside | usual, Rejection::UnusualGains)
}

pub fn trend_ok(model: u8, b: i64) -> bool
    ensures { result ≡ trend_ok model b }
{
    pick(has_trend(model), in_range(b), is_zero(b))
}

pub fn cell_ok(m: usize, k: usize, v: i64) -> bool
    ensures { result ≡ cell_ok m k v }
{
    pick(k < m, in_range(v), is_zero(v))
}

pub fn index_ok(m: u8, p: u8) -> bool
    ensures { result ≡ index_ok m p }
{
    pick(m == 0, p == 0, p < m)
}

pub fn count_ok(n: u64) -> bool
    ensures { result ≡ count_ok n }
{
    n <= MAX_COUNT
}

// The sum is at most readings × 2^52, word by word: those of the limit are readings >> 12 and the 12 bits below it << 52.
fn sum_ok(readings: u64, high: u64, low: u64) -> bool
    ensures { result ≡ sum_ok (score_of readings high low) }
{
    let most_high = readings / 4096;
    let most_low = (readings % 4096) * 4_503_599_627_370_496;
    (high < most_high) | ((high == most_high) & (low <= most_low))
}

// Check 17 as a test, of the three words and of a score.
pub fn words_ok(count: u64, readings: u64, high: u64, low: u64) -> bool
    ensures { result ≡ score_ok count (score_of readings high low) }
{
    (readings <= count) & sum_ok(readings, high, low)
}

pub fn score_ok(count: u64, s: Score) -> bool
    ensures { result ≡ score_ok count s }
{
    words_ok(count, s.readings, s.high, s.low)
}
