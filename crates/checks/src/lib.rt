// The checks 5, 6, 7, 16, 9, 10 and 17 of a state handed in directly, and the switch of its rounding rule.
#![tactic(auto)]

pub mod switching;

ghost use Rattle.std.specs.Prelude.{◌≡◌};
ghost use Rattle.state.specs.Rejections.{outcome};
ghost use Rattle.state.specs.States.{seasonal_ok, values_ok, position_ok, check};

use models::{model_ok, period_ok};
use ranges::{cell_ok, check_parameters, count_ok, in_range, index_ok, score_ok, trend_ok};
use state::{Rejection, State, unless};

fn seasonal_ok(m: usize, cells: &[i64; 48]) -> bool
    ensures { result ≡ seasonal_ok m cells.now }
{
    let mut ok = true;
    for k in 0..48 {
        let good = cell_ok(m, k, cells[k]);
        ok = ok & good;
    }
    ok
}

// Checks 9 and 10 as tests.
fn values_ok(s: State) -> bool
    ensures { result ≡ values_ok s }
{
    in_range(s.level) & trend_ok(s.model, s.trend) & seasonal_ok(s.period as usize, &s.seasonal)
}

fn position_ok(s: State) -> bool
    ensures { result ≡ position_ok s }
{
    index_ok(s.period, s.index) & count_ok(s.count)
}

// What rejects a state handed in.
pub fn check(s: State) -> Result<(), Rejection>
    ensures { result ≡ outcome (check s) }
{
    unless(model_ok(s.model), Rejection::BadModel)?;
    unless(period_ok(s.model, s.period), Rejection::BadPeriod)?;
    check_parameters(s.outside, s.model, s.alpha, s.beta, s.gamma, s.phi)?;
    unless(values_ok(s), Rejection::BadValue)?;
    unless(position_ok(s), Rejection::BadPosition)?;
    unless(score_ok(s.count, s.score), Rejection::BadScore)
}
