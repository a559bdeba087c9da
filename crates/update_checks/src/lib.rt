// What rejects a step on numbers, and the update that a rejection gives.
#![tactic(auto)]

ghost use Rattle.std.specs.Prelude.{◌≡◌, ◌&&◌};
ghost use Rattle.state.specs.Rejections.{unless, ◌then◌, outcome, bad_reading};
ghost use Rattle.state.specs.Fixed.{in_range, is_reading};
ghost use Rattle.ets.specs.Steps.{count_code};
ghost use Rattle.ets.specs.Updates.{gains_ok, ranges_ok, numbers_code, advance_code};

use ets::Update;
use models::ONE;
use ranges::{count_ok, in_range, is_reading};
use state::{MAX_COUNT, Numbers, Rejection, unless};

pub fn stays(u: Update) -> bool
    ensures { result ≡ (in_range u.level && in_range u.trend && in_range u.season) }
{
    in_range(u.level) & in_range(u.trend) & in_range(u.season)
}

pub fn check_count(count: u64) -> Result<(), Rejection>
    ensures { result ≡ outcome (count_code count) }
{
    unless(count != MAX_COUNT, Rejection::CountFull)
}

// 13, then 14.
pub fn check_early(count: u64, y: i32) -> Result<(), Rejection>
    ensures { result ≡ outcome (unless (is_reading y) bad_reading then count_code count) }
{
    unless(is_reading(y), Rejection::BadReading)?;
    check_count(count)
}

fn gains_ok(n: Numbers) -> bool
    ensures { result ≡ gains_ok n }
{
    (n.alpha <= ONE) & (n.beta <= ONE) & (n.gamma <= ONE) & (n.phi <= ONE)
}

fn ranges_ok(n: Numbers) -> bool
    ensures { result ≡ ranges_ok n }
{
    in_range(n.level) & in_range(n.trend) & in_range(n.season)
}

// What rejects the numbers of a reading.
pub fn check_numbers(n: Numbers) -> Result<(), Rejection>
    ensures { result ≡ outcome (numbers_code n) }
{
    unless(gains_ok(n), Rejection::BadParameter)?;
    unless(ranges_ok(n), Rejection::BadValue)?;
    unless(count_ok(n.count), Rejection::BadPosition)
}

// The same of the numbers that a missing reading has a use for: no gain and no season value is among them.
pub fn check_advance(n: Numbers) -> Result<(), Rejection>
    ensures { result ≡ outcome (advance_code n) }
{
    let ranges = in_range(n.level) & in_range(n.trend);
    unless(n.phi <= ONE, Rejection::BadParameter)?;
    unless(ranges, Rejection::BadValue)?;
    unless(count_ok(n.count), Rejection::BadPosition)
}
