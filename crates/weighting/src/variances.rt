// The calls, for models with additive errors: rejected by the state's checks, the kind of its errors, and then by the horizon.
ghost use Rattle.std.specs.Prelude.{◌≡◌};
ghost use Rattle.weights.specs.Weights.{weight, variance};

use super::check_errors;
use super::sums::{product, weight_of};
use horizons::Request;
use state::{Rejection, State};
use weights::Variance;

pub fn weight(s: State, h: u32) -> Result<u64, Rejection>
    ensures { result ≡ weight s h }
{
    check_errors(false, s, h)?;
    let r = Request {
        state: &s,
        horizon: h,
    };
    Ok(weight_of(r))
}

pub fn variance(s: State, h: u32, sigma2: u32) -> Result<Variance, Rejection>
    ensures { result ≡ variance s h sigma2 }
{
    check_errors(false, s, h)?;
    let r = Request {
        state: &s,
        horizon: h,
    };
    Ok(product(weight_of(r), sigma2))
}
