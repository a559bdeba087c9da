// The calls by two lent lists of clock changes: document 02, W-208. A reading and a missing reading are here; the batch stands with the loop of every batch, the forecasts
// with theirs, the window's call in a crate of its own.
#![tactic(auto)]

ghost use Rattle.std.specs.Prelude.{◌≡◌};
ghost use Rattle.calendars.specs.Calendars.{calendar_of};
ghost use Rattle.ets.specs.Calendars.{step_on, missing_on};
ghost use Rattle.state.specs.Rejections.{◌then◌, rejection_of, bad_calendar};
ghost use Rattle.state.specs.States.{check};

use checks::check;
use ets::{Missed, Stepped};
pub use forecasting::changes::{forecast_on, forecasts_on};
use state::{Rejection, State};
use turns::{calendar_ok, start, walk};
pub use updates::batches::batch_on;
use updates::steps::{missing, step};
pub use windows::window_maximum;

// What rejects a call by lists that it can't follow: the state's checks, then 20.
fn calendar_rejection(s: State) -> Rejection
    ensures { result ≡ rejection_of (check s then bad_calendar) }
{
    match check(s) {
        Ok(()) => Rejection::BadCalendar,
        Err(rejection) => rejection,
    }
}

// A reading: the step from the place that the lists give, which checks the state, and then p goes where they say. Where it is rejected p is put back.
pub fn step_on(s: State, skipped: &[u64], repeated: &[u64], y: i32) -> Stepped
    ensures { result ≡ step_on (calendar_of skipped.now repeated.now) s y }
{
    if !calendar_ok(s.period, skipped, repeated) {
        return Stepped {
            state: s,
            residual: Err(calendar_rejection(s)),
        };
    }
    let t = walk(skipped, repeated, start(), s.period, s.index, s.count);
    let mut from = s;
    from.index = t.used;
    let done = step(from, y);
    let residual = done.residual;
    let mut next = done.state;
    next.index = if residual.is_ok() { t.next } else { s.index };
    Stepped {
        state: next,
        residual,
    }
}

// A missing reading, in the same way.
pub fn missing_on(s: State, skipped: &[u64], repeated: &[u64]) -> Missed
    ensures { result ≡ missing_on (calendar_of skipped.now repeated.now) s }
{
    if !calendar_ok(s.period, skipped, repeated) {
        return Missed {
            state: s,
            outcome: Err(calendar_rejection(s)),
        };
    }
    let t = walk(skipped, repeated, start(), s.period, s.index, s.count);
    let mut from = s;
    from.index = t.used;
    let done = missing(from);
    let outcome = done.outcome;
    let mut next = done.state;
    next.index = if outcome.is_ok() { t.next } else { s.index };
    Missed {
        state: next,
        outcome,
    }
}
