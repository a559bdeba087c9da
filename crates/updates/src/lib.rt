// The step on numbers: no state is copied, and no other season value is looked at. The step on a state and the batch, whose loop is over numbers, stand with it: they check a state once.
#![tactic(auto)]

mod arithmetic;
pub mod batches;
pub mod steps;

ghost use Rattle.std.specs.Prelude.{◌≡◌};
ghost use Rattle.ets.specs.Updates.{update, update_missing, update_score};

use arithmetic::{missing_update, reading_update, score_after};
use ets::Update;
use ranges::{count_ok, is_residual, score_ok};
use state::{Numbers, Rejection, Score};
use update_checks::{check_advance, check_numbers};

// A reading on the rounding rule and the numbers of a state: what it makes of them, or the rejection.
pub fn update(even: bool, n: Numbers, y: i32) -> Result<Update, Rejection>
    ensures { result ≡ update even n y }
{
    check_numbers(n)?;
    reading_update(even, n, y)
}

// A missing reading on the rounding rule and the numbers of a state.
pub fn update_missing(even: bool, n: Numbers) -> Result<Update, Rejection>
    ensures { result ≡ update_missing even n }
{
    check_advance(n)?;
    missing_update(even, n)
}

// The score after a reading with residual e. A score that no state has, or a residual that no reading has, leaves it.
pub fn update_score(even: bool, count: u64, score: Score, e: i64) -> Score
    ensures { result ≡ update_score even count score e }
{
    let ok = count_ok(count) & score_ok(count, score) & is_residual(e);
    if ok {
        return score_after(even, score, e);
    }
    score
}
