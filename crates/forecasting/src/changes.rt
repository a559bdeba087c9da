// Forecasts that walk two lent lists of clock changes (document 02, W-208): refusal 20 comes right after 12.
ghost use Rattle.std.specs.Prelude.{◌≡◌, length};
ghost use Rattle.calendars.specs.Calendars.{calendar_of};
ghost use Rattle.forecasts.specs.Calendars.{forecast_on, forecasts_on, forecast_cells_on};

use super::sums::{fill, place_at, trend_line};
use horizons::{MAX_HORIZON, Request, check_forecast, check_forecasts_to};
use models::ties_to_even;
use state::{Rejection, State, unless};
use turns::calendar_ok;

// The forecast for one horizon.
pub fn forecast_on(s: State, skipped: &[u64], repeated: &[u64], h: u32) -> Result<i64, Rejection>
    ensures { result ≡ forecast_on (calendar_of skipped.now repeated.now) s h }
{
    check_forecast(s, h)?;
    unless(
        calendar_ok(s.period, skipped, repeated),
        Rejection::BadCalendar,
    )?;
    let r = Request {
        state: &s,
        horizon: h,
    };
    let k = place_at(r, skipped, repeated) as usize;
    let season = s.seasonal[k];
    Ok(trend_line(ties_to_even(s.model), s.level, s.phi, s.trend, h) + season)
}

// The forecasts for all horizons to h, in the first h elements of a buffer; a rejected call writes nothing.
pub fn forecasts_on(
    s: State,
    skipped: &[u64],
    repeated: &[u64],
    h: u32,
    values: &mut [i64],
) -> Result<(), Rejection>
    ensures answer { result ≡ forecasts_on (calendar_of skipped.now repeated.now) s h (length values.old) }
    ensures buffer { values.new ≡ forecast_cells_on (calendar_of skipped.now repeated.now) s h values.old }
{
    check_forecasts_to(MAX_HORIZON, s, h, values.len())?;
    unless(
        calendar_ok(s.period, skipped, repeated),
        Rejection::BadCalendar,
    )?;
    let r = Request {
        state: &s,
        horizon: h,
    };
    fill(r, skipped, repeated, values);
    Ok(())
}
