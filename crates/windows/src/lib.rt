// A quiet window: a half-open span of the places of a day, running on from 23 to 0 where its end is the smaller.
#![tactic(auto)]

ghost use Rattle.std.specs.Prelude.{◌≡◌};
ghost use Rattle.calendars.specs.Calendars.{calendar_of};
ghost use Rattle.state.specs.Rejections.{answer, unless, bad_calendar};
ghost use Rattle.ets.specs.Bounds.{Walkable};
ghost use Rattle.forecasts.specs.Calendars.{forecast_list_by};
ghost use Rattle.clock.specs.Windows.{window_ok, in_window, inside, is_some, largest, window_maximum};
ghost use Rattle.clock.specs.Cases.{raised};

use forecasting::changes::forecasts_on;
use horizons::Request;
use state::{Rejection, State, unless};
use turns::{start, walk};

fn window_ok(start: u8, end: u8) -> bool
    ensures { result ≡ window_ok start end }
{
    (start <= 23) & (end <= 23)
}

fn in_window(start: u8, end: u8, p: u8) -> bool
    ensures { result ≡ in_window start end p }
{
    if start < end {
        return (start <= p) & (p < end);
    }
    (start <= p) | (p < end)
}

// The largest so far, after a number v that counts where `taken`.
fn raised(taken: bool, best: Option<i64>, v: i64) -> Option<i64>
    ensures { result ≡ raised taken best v }
{
    if taken { best.max(Some(v)) } else { best }
}

// The largest of the 24 forecasts whose place is inside.
fn largest_inside(
    day: Request<'_>,
    skipped: &[u64],
    repeated: &[u64],
    first: u8,
    end: u8,
    values: &[i64],
) -> Result<i64, Rejection>
    requires { Walkable (calendar_of skipped.now repeated.now) day.state.now.period × (values.now ≡ forecast_list_by (calendar_of skipped.now repeated.now) day.state.now 24) }
    ensures { result ≡ answer (unless (is_some (inside (calendar_of skipped.now repeated.now) day.entry.state.now first end)) bad_calendar) (largest (inside (calendar_of skipped.now repeated.now) day.entry.state.now first end)) }
{
    let s = day.state;
    let mut best = None;
    let mut p = s.index;
    let mut n = s.count;
    let mut at = start();
    for v in values {
        let t = walk(skipped, repeated, at, s.period, p, n);
        best = raised(in_window(first, end, t.used), best, *v);
        p = t.next;
        at = t.at;
        n += 1;
    }
    match best {
        Some(v) => Ok(v),
        None => Err(Rejection::BadCalendar),
    }
}

// The largest forecast of the next 24 steps whose place is inside the window from `first` to before `end`.
pub fn window_maximum(
    s: State,
    skipped: &[u64],
    repeated: &[u64],
    first: u8,
    end: u8,
) -> Result<i64, Rejection>
    ensures { result ≡ window_maximum (calendar_of skipped.now repeated.now) s first end }
{
    let mut values = [0i64; 24];
    forecasts_on(s, skipped, repeated, 24, &mut values)?;
    unless(window_ok(first, end), Rejection::BadCalendar)?;
    let day = Request {
        state: &s,
        horizon: 24,
    };
    largest_inside(day, skipped, repeated, first, end, &values)
}
