// Callers that chain real calls, directly and in place: what they are answered is within demand 3's limits by their contracts.
#![tactic(auto)]

ghost use Rattle.std.specs.Prelude.{◌≡◌, []};
ghost use Rattle.state.specs.Rejections.{answer_code, answer_value};
ghost use Rattle.forecasts.specs.Forecasts.{forecast};
ghost use Rattle.ets.specs.Steps.{step};
ghost use Rattle.snapshot.specs.Snapshots.{decoded};
ghost use Rattle.in_place.specs.InPlace.{rewrite_code, in_place_step_bytes, in_place_residual, in_place_forecast_code, in_place_forecast};
ghost use Rattle.traces.specs.Calls.{followed, Reading, InPlaceReading};
ghost use Rattle.callers.specs.Chains.{ForecastWithin};

use c_api::{forecaster_forecast, forecaster_step};
use forecasting::forecast;
use state::{Rejection, State};
use updates::steps::step;

// A reading, then a forecast.
pub fn step_then_forecast(s: State, y: i32, h: u32) -> Result<i64, Rejection>
    ensures answer { result ≡ forecast (step s y).state h }
    ensures limit { ForecastWithin s (Reading y) h (answer_code result) (answer_value result) }
{
    let stepped = step(s, y);
    let next = stepped.state;
    forecast(next, h)
}

// The same in place, by the station's calls: the rejection of the forecast, or 0. The slice may hold an old snapshot, with room for the new one.
pub fn step_then_forecast_in_place(
    snapshot: &mut [u8],
    y: i32,
    h: u32,
    residual: &mut i64,
    value: &mut i64,
) -> u8
    ensures code { result ≡ in_place_forecast_code (in_place_step_bytes snapshot.old y) h }
    ensures bytes { snapshot.new ≡ in_place_step_bytes snapshot.old y }
    ensures number { residual.new ≡ in_place_residual snapshot.old y residual.old }
    ensures forecast { value.new ≡ in_place_forecast (in_place_step_bytes snapshot.old y) h value.old }
    ensures limit { rewrite_code snapshot.old ≡ 0 → ForecastWithin (decoded snapshot.old) (InPlaceReading (followed []) y) h result value.new }
{
    forecaster_step(snapshot, y, residual);
    forecaster_forecast(snapshot, h, value)
}
