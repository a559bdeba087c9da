// What rejects a forecast: the state's checks, then the horizon.
#![tactic(auto)]

ghost use Rattle.std.specs.Prelude.{◌≡◌, ◌≤◌, leb};
ghost use Rattle.state.specs.Rejections.{◌then◌, outcome, short_buffer, unless};
ghost use Rattle.state.specs.States.{check};
ghost use Rattle.forecasts.specs.Forecasts.{horizon_ok, forecast_code_to, forecast_code};

use checks::check;
use state::{Rejection, State, unless};

// The longest horizon.
pub const MAX_HORIZON: u32 = 512;

// A state that passed its checks, and a horizon in range: what a forecast and a weight are computed from.
#[derive(Clone, Copy)]
pub struct Request<'a> {
    pub state: &'a State,
    pub horizon: u32,
    ghost passes: { check state.now ≡ 0 },
    ghost above: { 1 ≤ horizon },
    ghost below: { horizon ≤ 512 },
}

// Whether a horizon is at least 1 and not above a limit.
pub fn horizon_ok(limit: u32, h: u32) -> bool
    ensures { result ≡ horizon_ok limit h }
{
    (1 <= h) & (h <= limit)
}

// What rejects a forecast on a display of so many horizons.
pub fn check_forecast_to(limit: u32, s: State, h: u32) -> Result<(), Rejection>
    ensures { result ≡ outcome (forecast_code_to limit s h) }
{
    check(s)?;
    unless(horizon_ok(limit, h), Rejection::BadHorizon)
}

// What rejects a forecast.
pub fn check_forecast(s: State, h: u32) -> Result<(), Rejection>
    ensures { result ≡ outcome (forecast_code s h) }
{
    check_forecast_to(MAX_HORIZON, s, h)
}

// What rejects the forecasts for all horizons in a buffer: the same, then the room.
pub fn check_forecasts_to(limit: u32, s: State, h: u32, room: usize) -> Result<(), Rejection>
    ensures { result ≡ outcome (forecast_code_to limit s h then unless (leb h room) short_buffer) }
{
    check_forecast_to(limit, s, h)?;
    unless((h as usize) <= room, Rejection::ShortBuffer)
}
