// The calls on the state that a lent slice holds: the slice's own rejection, then that of the call.
ghost use Rattle.std.specs.Prelude.{◌≡◌, length};
ghost use Rattle.calendars.specs.Calendars.{calendar_of};
ghost use Rattle.state.specs.Rejections.{gives, accepting, rejects};
ghost use Rattle.ets.specs.Batches.{batch as batched};
ghost use Rattle.ets.specs.Calendars.{batch_on as batched_on};
ghost use Rattle.forecasts.specs.Forecasts.{forecasts as all_forecasts};
ghost use Rattle.forecasts.specs.Calendars.{forecasts_on as all_forecasts_on};
ghost use Rattle.snapshot.specs.Snapshots.{decoded};
ghost use Rattle.slices.specs.Slices.{in_place_code};
ghost use Rattle.weights.specs.Weights.{weight as weight_at};
ghost use Rattle.weights.specs.Groups.{weight_groups as weight_groups_at};
ghost use Rattle.relative_errors.specs.Relative.{relative_variance as relative_variance_at};
ghost use Rattle.bench_api.specs.Snapshots.{batch_taken, batch_cells, batch_on_taken, batch_on_cells, all_cells, all_on_cells, in_place_group_cells, in_place_relative_cells};

use slices::read;
use state::{Rejection, State};
use updates::batches;
use weighting::{groups, variances};

// The state that a lent slice holds.
fn opened(snapshot: &[u8]) -> Result<State, Rejection>
    ensures { result ≡ gives (in_place_code snapshot.now) (decoded snapshot.now) }
{
    let opened = read(snapshot);
    opened.outcome?;
    Ok(opened.state)
}

pub fn batch(
    snapshot: &[u8],
    readings: &[i32],
    levels: &mut [i64],
    taken: &mut usize,
) -> Result<(), Rejection>
    ensures answer { result ≡ accepting (in_place_code snapshot.now) (batched (decoded snapshot.now) readings.now (length levels.old)).outcome rejects }
    ensures number { taken.new ≡ batch_taken snapshot.now readings.now (length levels.old) }
    ensures buffer { levels.new ≡ batch_cells snapshot.now readings.now levels.old }
{
    *taken = 0;
    let done = batches::batch(opened(snapshot)?, readings, levels);
    *taken = done.taken;
    done.outcome
}

pub fn batch_on(
    snapshot: &[u8],
    skipped: &[u64],
    repeated: &[u64],
    readings: &[i32],
    levels: &mut [i64],
    taken: &mut usize,
) -> Result<(), Rejection>
    ensures answer { result ≡ accepting (in_place_code snapshot.now) (batched_on (calendar_of skipped.now repeated.now) (decoded snapshot.now) readings.now (length levels.old)).outcome rejects }
    ensures number { taken.new ≡ batch_on_taken snapshot.now (calendar_of skipped.now repeated.now) readings.now (length levels.old) }
    ensures buffer { levels.new ≡ batch_on_cells snapshot.now (calendar_of skipped.now repeated.now) readings.now levels.old }
{
    *taken = 0;
    let done = batches::batch_on(opened(snapshot)?, skipped, repeated, readings, levels);
    *taken = done.taken;
    done.outcome
}

pub fn forecasts(snapshot: &[u8], horizon: u32, values: &mut [i64]) -> Result<(), Rejection>
    ensures answer { result ≡ accepting (in_place_code snapshot.now) (all_forecasts (decoded snapshot.now) horizon (length values.old)) rejects }
    ensures buffer { values.new ≡ all_cells snapshot.now horizon values.old }
{
    forecasting::forecasts(opened(snapshot)?, horizon, values)
}

pub fn forecasts_on(
    snapshot: &[u8],
    skipped: &[u64],
    repeated: &[u64],
    horizon: u32,
    values: &mut [i64],
) -> Result<(), Rejection>
    ensures answer { result ≡ accepting (in_place_code snapshot.now) (all_forecasts_on (calendar_of skipped.now repeated.now) (decoded snapshot.now) horizon (length values.old)) rejects }
    ensures buffer { values.new ≡ all_on_cells snapshot.now (calendar_of skipped.now repeated.now) horizon values.old }
{
    forecasting::changes::forecasts_on(opened(snapshot)?, skipped, repeated, horizon, values)
}

pub fn weight(snapshot: &[u8], horizon: u32) -> Result<u64, Rejection>
    ensures { result ≡ accepting (in_place_code snapshot.now) (weight_at (decoded snapshot.now) horizon) rejects }
{
    variances::weight(opened(snapshot)?, horizon)
}

pub fn weight_groups(snapshot: &[u8], horizon: u32, cells: &mut [u64]) -> Result<(), Rejection>
    ensures answer { result ≡ accepting (in_place_code snapshot.now) (weight_groups_at (decoded snapshot.now) horizon (length cells.old)) rejects }
    ensures buffer { cells.new ≡ in_place_group_cells snapshot.now horizon cells.old }
{
    groups::weight_groups(opened(snapshot)?, horizon, cells)
}

pub fn relative_variance(
    snapshot: &[u8],
    horizon: u32,
    sigma2: u64,
    thetas: &mut [f64],
) -> Result<f64, Rejection>
    ensures answer { result ≡ accepting (in_place_code snapshot.now) (relative_variance_at (decoded snapshot.now) horizon sigma2 (length thetas.old)) rejects }
    ensures buffer { thetas.new ≡ in_place_relative_cells snapshot.now horizon sigma2 thetas.old }
{
    relative_variance::relative_variance(opened(snapshot)?, horizon, sigma2, thetas)
}
