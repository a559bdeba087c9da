// The arithmetic of one step, on numbers within the bounds of a state that passed its checks.
ghost use Rattle.std.specs.Prelude.{◌≡◌, ◌≤◌};
ghost use Rattle.integers.specs.Bounds.{Within};
ghost use Rattle.state.specs.Rejections.{unless};
ghost use Rattle.state.specs.Fixed.{share, max_square, max_residual};
ghost use Rattle.ets.specs.Steps.{residual, square_of, score_after};
ghost use Rattle.ets.specs.Updates.{terms_at, corrections, reading_update, advance, missing_update};
ghost use Rattle.ets.specs.Bounds.{NumbersIn, AdvanceIn, TermsIn, ScoreIn};

use ets::{Terms, Update};
use ranges::in_range;
use rounding::round;
use state::{Numbers, Rejection, Score, unless};
use update_checks::{check_count, check_early, stays};

// R(a × x): the share that a parameter gives of x.
pub fn share(even: bool, a: u32, x: i64) -> i64
    requires { (a ≤ 65536) × Within 8796093022208 x }
    ensures { result ≡ share even a x }
{
    round(even, (a as i64) * x)
}

fn terms_at(even: bool, n: Numbers) -> Terms
    requires { NumbersIn n }
    ensures { result ≡ terms_at even n }
{
    Terms {
        even,
        alpha: n.alpha,
        beta: n.beta,
        gamma: n.gamma,
        level: n.level,
        damped: share(even, n.phi, n.trend),
        season: n.season,
    }
}

fn residual(t: Terms, y: i32) -> i64
    requires { TermsIn t × Within 1000000 y }
    ensures value { result ≡ residual t y }
    ensures bound { Within max_residual result }
{
    65536 * (y as i64) - (t.level + t.damped + t.season)
}

// The square of R(e).
fn square(even: bool, e: i64) -> u64
    requires { Within max_residual e }
    ensures value { result ≡ square_of even e }
    ensures bound { result ≤ max_square }
{
    let r = round(even, e);
    (r * r) as u64
}

// A square in the sum, and one reading more: what leaves the low word goes into the high one.
fn add_square(score: Score, square: u64) -> Score
    requires { ScoreIn score × (square ≤ max_square) }
    ensures { result ≡ score_after score square }
{
    let room = u64::MAX - square;
    let readings = score.readings + 1;
    if score.low <= room {
        return Score {
            readings,
            high: score.high,
            low: score.low + square,
        };
    }
    Score {
        readings,
        high: score.high + 1,
        low: score.low - room - 1,
    }
}

// The score after a reading with residual e.
pub fn score_after(even: bool, score: Score, e: i64) -> Score
    requires { ScoreIn score × Within max_residual e }
    ensures { result ≡ score_after score (square_of even e) }
{
    add_square(score, square(even, e))
}

fn corrections(t: Terms, e: i64) -> Update
    requires { TermsIn t × Within max_residual e }
    ensures { result ≡ corrections t e }
{
    Update {
        level: t.level + t.damped + share(t.even, t.alpha, e),
        trend: t.damped + share(t.even, t.beta, e),
        season: t.season + share(t.even, t.gamma, e),
        residual: e,
    }
}

// A reading: its rejection (13, 14, 15), or the numbers after it.
pub fn reading_update(even: bool, n: Numbers, y: i32) -> Result<Update, Rejection>
    requires { NumbersIn n }
    ensures { result ≡ reading_update even n y }
{
    check_early(n.count, y)?;
    let t = terms_at(even, n);
    let u = corrections(t, residual(t, y));
    unless(stays(u), Rejection::LeavesRange)?;
    Ok(u)
}

// The numbers that the model itself expects next: a missing reading takes them.
fn advance(even: bool, n: Numbers) -> Update
    requires { AdvanceIn n }
    ensures { result ≡ advance (terms_at even n) }
{
    let damped = share(even, n.phi, n.trend);
    Update {
        level: n.level + damped,
        trend: damped,
        season: n.season,
        residual: 0,
    }
}

// A missing reading: its rejection (14, 15), or the numbers after it.
pub fn missing_update(even: bool, n: Numbers) -> Result<Update, Rejection>
    requires { AdvanceIn n }
    ensures { result ≡ missing_update even n }
{
    check_count(n.count)?;
    let u = advance(even, n);
    unless(in_range(u.level), Rejection::LeavesRange)?;
    Ok(u)
}
