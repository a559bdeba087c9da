// Forecasts from a state by value: for one horizon, and for all of them into a lent buffer. Document 01, "Forecast and variance".
#![tactic(auto)]

pub mod changes;
mod sums;

ghost use Rattle.std.specs.Prelude.{◌≡◌, ◌≤◌, length};
ghost use Rattle.state.specs.Rejections.{outcome};
ghost use Rattle.forecasts.specs.Forecasts.{forecast_to, forecasts_to, forecast_cells_to, forecast, forecasts, forecast_cells, display_forecast, display_forecasts, display_forecast_cells, forecast_from_code, forecast_from};

use horizons::{MAX_HORIZON, Request, check_forecast_to, check_forecasts_to, horizon_ok};
use models::{ONE, ties_to_even};
use ranges::in_range;
use state::{Rejection, State, unless};
use sums::{fill, season_at, trend_line};

// The longest horizon of the bedside display, which has 48 cells (document 02, W-206).
const DISPLAY_HORIZON: u32 = 48;

fn forecast_to(limit: u32, s: State, h: u32) -> Result<i64, Rejection>
    requires { limit ≤ 512 }
    ensures { result ≡ forecast_to limit s h }
{
    check_forecast_to(limit, s, h)?;
    let r = Request {
        state: &s,
        horizon: h,
    };
    Ok(trend_line(ties_to_even(s.model), s.level, s.phi, s.trend, h) + season_at(r))
}

// The forecast for one horizon.
pub fn forecast(s: State, h: u32) -> Result<i64, Rejection>
    ensures { result ≡ forecast s h }
{
    forecast_to(MAX_HORIZON, s, h)
}

fn forecasts_to(limit: u32, s: State, h: u32, values: &mut [i64]) -> Result<(), Rejection>
    requires { limit ≤ 512 }
    ensures answer { result ≡ forecasts_to limit s h (length values.old) }
    ensures buffer { values.new ≡ forecast_cells_to limit s h values.old }
{
    check_forecasts_to(limit, s, h, values.len())?;
    let skipped = [0u64; 0];
    let repeated = [0u64; 0];
    let r = Request {
        state: &s,
        horizon: h,
    };
    fill(r, &skipped, &repeated, values);
    Ok(())
}

// The forecasts for all horizons to h, in the first h elements of a buffer; a rejected call writes nothing.
pub fn forecasts(s: State, h: u32, values: &mut [i64]) -> Result<(), Rejection>
    ensures answer { result ≡ forecasts s h (length values.old) }
    ensures buffer { values.new ≡ forecast_cells s h values.old }
{
    forecasts_to(MAX_HORIZON, s, h, values)
}

// The bedside display's forecast for one horizon.
pub fn display_forecast(s: State, h: u32) -> Result<i64, Rejection>
    ensures { result ≡ display_forecast s h }
{
    forecast_to(DISPLAY_HORIZON, s, h)
}

// The bedside display's forecasts for all horizons to h; a rejected call writes nothing.
pub fn display_forecasts(s: State, h: u32, values: &mut [i64]) -> Result<(), Rejection>
    ensures answer { result ≡ display_forecasts s h (length values.old) }
    ensures buffer { values.new ≡ display_forecast_cells s h values.old }
{
    forecasts_to(DISPLAY_HORIZON, s, h, values)
}

// What rejects a forecast on numbers.
fn check_from(level: i64, phi: u32, trend: i64, season: i64, h: u32) -> Result<(), Rejection>
    ensures { result ≡ outcome (forecast_from_code level phi trend season h) }
{
    let ranges = in_range(level) & in_range(trend) & in_range(season);
    unless(phi <= ONE, Rejection::BadParameter)?;
    unless(ranges, Rejection::BadValue)?;
    unless(horizon_ok(MAX_HORIZON, h), Rejection::BadHorizon)
}

// The forecast on numbers: the rounding rule, the level, phi, the trend and the season value of the horizon.
pub fn forecast_from(
    even: bool,
    level: i64,
    phi: u32,
    trend: i64,
    season: i64,
    h: u32,
) -> Result<i64, Rejection>
    ensures { result ≡ forecast_from even level phi trend season h }
{
    check_from(level, phi, trend, season, h)?;
    Ok(trend_line(even, level, phi, trend, h) + season)
}
