// The commands that leave a state as it is and answer a number: 30, 31 and 32.
ghost use Rattle.std.specs.Prelude.{◌≡◌};
ghost use Rattle.actions.specs.Actions.{accepted, rejected, give_forecast, give_variance, give_relative_variance};

use super::{Action, accept, reject};
use forecasting::forecast;
use relative_variance::relative_variance;
use replies::Reply;
use state::State;
use weighting::variances::variance;
use weights::Variance;

pub fn give_forecast(s: State, horizon: u32) -> Action
    ensures { result ≡ give_forecast s horizon accepted (rejected s) }
{
    match forecast(s, horizon) {
        Ok(value) => accept(Reply::Forecast { horizon, value }, s),
        Err(rejection) => reject(s, rejection),
    }
}

pub fn give_variance(s: State, horizon: u32, sigma2: u32) -> Action
    ensures { result ≡ give_variance s horizon sigma2 accepted (rejected s) }
{
    match variance(s, horizon, sigma2) {
        Ok(Variance { high, low }) => accept(Reply::Variance { horizon, high, low }, s),
        Err(rejection) => reject(s, rejection),
    }
}

// The θ are not printed; there is room for those of every horizon.
pub fn give_relative_variance(s: State, horizon: u32, sigma2: u64) -> Action
    ensures { result ≡ give_relative_variance s horizon sigma2 accepted (rejected s) }
{
    let mut thetas = [0.0f64; 512];
    match relative_variance(s, horizon, sigma2, &mut thetas) {
        Ok(v) => {
            let bits = f64::to_bits(v);
            accept(Reply::RelativeVariance { horizon, bits }, s)
        }
        Err(rejection) => reject(s, rejection),
    }
}
