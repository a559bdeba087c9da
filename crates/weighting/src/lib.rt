// The weights and the variance of a forecast: document 01, "Forecast and variance"; the weights by j modulo m: document 02, W-210.
#![tactic(auto)]

pub mod coefficients;
pub mod groups;
mod sums;
pub mod variances;

ghost use Rattle.std.specs.Prelude.{◌≡◌};
ghost use Rattle.state.specs.Rejections.{outcome};
ghost use Rattle.weights.specs.Weights.{errors_code};

use checks::check;
use horizons::{MAX_HORIZON, horizon_ok};
use models::errors_are;
use state::{Rejection, State, unless};

// What rejects a call for one kind of errors, multiplicative (relative) or additive.
pub fn check_errors(relative: bool, s: State, h: u32) -> Result<(), Rejection>
    ensures { result ≡ outcome (errors_code relative s h) }
{
    check(s)?;
    unless(errors_are(relative, s.model), Rejection::OutOfPlace)?;
    unless(horizon_ok(MAX_HORIZON, h), Rejection::BadHorizon)
}
