// The calls on a lent slice that holds one snapshot: document 01, "Commands".
// A rejected call leaves the slice as found.
// The snapshot is checked once. A step reads the numbers that it needs and writes those that it moves: no state is copied.
// An old snapshot, without command 15, is first written as a new one, once.
#![tactic(auto)]

pub mod promises;

ghost use Rattle.std.specs.Prelude.{◌≡◌, true, leb, pos, ◌+◌, ◌<◌};
ghost use Rattle.state.specs.Fixed.{max_count};
ghost use Rattle.state.specs.Rejections.{gives, outcome, unless, short_buffer};
ghost use Rattle.layout.specs.Layout.{size_of, scored_in};
ghost use Rattle.snapshot.specs.Snapshots.{decoded};
ghost use Rattle.snapshot.specs.Facts.{Room};
ghost use Rattle.saving.specs.Encoding.{encoded};
ghost use Rattle.in_place.specs.InPlace.{rewrite_code, in_place_step_code, in_place_step_bytes, in_place_residual, in_place_missing_code, in_place_missing_bytes, in_place_switch_code, in_place_switch_bytes, in_place_forecast_code, in_place_forecast};
ghost use Rattle.in_place.specs.Facts.{ahead_in, moved_on, advanced_on, season_put, step_written};

use ets::Update;
use forecasting::forecast_from;
use layout::{MODEL_BYTE_AT, size_of};
use models::to_even;
use saving::rewriting::{
    rewrite_level, rewrite_position, rewrite_score, rewrite_season, rewrite_snapshot,
};
use slices::{score_value, season_value, slice_numbers, state_value};
use state::{Rejection, Score, unless};
use turns::next_index;
use updates::{update, update_missing, update_score};

// A slice that is to be rewritten: 12 where there is no room for the form that is saved.
fn check_room(m: u8, length: usize) -> Result<(), Rejection>
    ensures { result ≡ outcome (unless (leb (size_of m) length) short_buffer) }
{
    unless(size_of(m) <= length, Rejection::ShortBuffer)
}

// The slice holds the snapshot as it is saved: an old one gets its command 15.
fn upgrade(d: &mut [u8], scored: bool)
    requires { (rewrite_code d.old ≡ 0) × (scored ≡ scored_in d.old) }
    ensures { d.new ≡ encoded (decoded d.old) }
{
    if !scored {
        rewrite_snapshot(d, state_value(d));
    }
}

// The seasonal index moves on and the count rises.
fn move_on(d: &mut [u8], m: u8, p: u8, count: u64)
    requires { Room true d.old m p × (count < max_count) }
    ensures { d.new ≡ moved_on d.old m p count }
{
    rewrite_position(d, m, next_index(m, p), count + 1);
}

// The level and the trend, and the position moves on: all that a missing reading writes.
fn advance(d: &mut [u8], m: u8, p: u8, count: u64, level: i64, trend: i64)
    requires { Room true d.old m p × (count < max_count) }
    ensures { d.new ≡ advanced_on d.old m p count level trend }
{
    rewrite_level(d, level, trend);
    move_on(d, m, p, count);
}

// The season value, in its place where there is one.
fn put_season(d: &mut [u8], m: u8, p: u8, v: i64)
    requires { Room true d.old m p }
    ensures { d.new ≡ season_put d.old m p v }
{
    if m != 0 {
        rewrite_season(d, p, v);
    }
}

// The numbers that a step moved, in their places.
fn store(d: &mut [u8], m: u8, p: u8, count: u64, u: Update, score: Score)
    requires { Room true d.old m p × (count < max_count) }
    ensures { d.new ≡ step_written d.old m p count u score }
{
    put_season(d, m, p, u.season);
    rewrite_score(d, score);
    advance(d, m, p, count, u.level, u.trend);
}

// A reading: an accepted step rewrites the snapshot and gives the residual.
pub fn step(snapshot: &mut [u8], reading: i32) -> Result<i64, Rejection>
    ensures answer { result ≡ gives (in_place_step_code snapshot.old reading) (in_place_residual snapshot.old reading (pos 0)) }
    ensures bytes { snapshot.new ≡ in_place_step_bytes snapshot.old reading }
{
    let x = slice_numbers(snapshot)?;
    check_room(x.period, snapshot.len())?;
    let n = x.numbers;
    let u = update(x.even, n, reading)?;
    let score = update_score(x.even, n.count, score_value(snapshot), u.residual);
    upgrade(snapshot, x.scored);
    store(snapshot, x.period, x.index, n.count, u, score);
    Ok(u.residual)
}

// A missing reading: an accepted one rewrites the snapshot.
pub fn missing(snapshot: &mut [u8]) -> Result<(), Rejection>
    ensures answer { result ≡ outcome (in_place_missing_code snapshot.old) }
    ensures bytes { snapshot.new ≡ in_place_missing_bytes snapshot.old }
{
    let x = slice_numbers(snapshot)?;
    check_room(x.period, snapshot.len())?;
    let n = x.numbers;
    let u = update_missing(x.even, n)?;
    upgrade(snapshot, x.scored);
    advance(snapshot, x.period, x.index, n.count, u.level, u.trend);
    Ok(())
}

// A switch to ties to even: an accepted one sets bit 6 of the model byte, and of a snapshot with command 15 no other byte changes.
pub fn switch_to_even(snapshot: &mut [u8]) -> Result<(), Rejection>
    ensures answer { result ≡ outcome (in_place_switch_code snapshot.old) }
    ensures bytes { snapshot.new ≡ in_place_switch_bytes snapshot.old }
{
    let x = slice_numbers(snapshot)?;
    check_room(x.period, snapshot.len())?;
    upgrade(snapshot, x.scored);
    snapshot[MODEL_BYTE_AT] = to_even(snapshot[MODEL_BYTE_AT]);
    Ok(())
}

// The season value of a horizon, 0 without season.
fn season_ahead(s: &[u8], m: u8, p: u8, h: u32) -> i64
    requires { Room (scored_in s.now) s.now m p }
    ensures { result ≡ ahead_in s.now m p h }
{
    if (m == 0) | (h == 0) {
        return 0;
    }
    let ahead = (p as usize) + (h as usize) - 1;
    season_value(s, (ahead % (m as usize)) as u8).unwrap_or(0)
}

// The forecast for one horizon.
pub fn forecast(snapshot: &[u8], horizon: u32) -> Result<i64, Rejection>
    ensures { result ≡ gives (in_place_forecast_code snapshot.now horizon) (in_place_forecast snapshot.now horizon (pos 0)) }
{
    let x = slice_numbers(snapshot)?;
    let n = x.numbers;
    let season = season_ahead(snapshot, x.period, x.index, horizon);
    forecast_from(x.even, n.level, n.phi, n.trend, season, horizon)
}
