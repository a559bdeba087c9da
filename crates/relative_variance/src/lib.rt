// The variance of a forecast whose errors are multiplicative (document 000, Class 2), in doubles: document 02, W-205.
#![tactic(auto)]

mod doubles;

ghost use Rattle.std.specs.Prelude.{◌≤◌, ◌≡◌, length};
ghost use Rattle.state.specs.Rejections.{outcome};
ghost use Rattle.relative_errors.specs.Relative.{input_code, relative_variance, relative_cells};
ghost use Rattle.relative_errors.specs.Facts.{computed_variance, computed_cells};

use doubles::{copy, fill, is_finite, spread, squares};
use forecasting::forecasts;
use horizons::Request;
use state::{Rejection, State, unless};
use weighting::check_errors;
use weighting::coefficients::coefficients;

// The bits of 1.0: those of NaNs, infinities and negative numbers are above them.
const ONE_BITS: u64 = 0x3ff0_0000_0000_0000;

// What rejects the call before anything is computed.
fn check_input(s: State, h: u32, sigma2: u64, room: usize) -> Result<(), Rejection>
    ensures { result ≡ outcome (input_code s h sigma2 room) }
{
    check_errors(true, s, h)?;
    unless(sigma2 <= ONE_BITS, Rejection::BadSigma2)?;
    unless((h as usize) <= room, Rejection::ShortBuffer)
}

// A call that nothing but 19 rejects. The doubles are computed apart, so that a rejected call leaves the lent ones as found.
fn computed(r: Request<'_>, sigma2: f64, thetas: &mut [f64]) -> Result<f64, Rejection>
    requires { r.horizon ≤ length thetas.old }
    ensures answer { result ≡ computed_variance r.entry.state.now r.entry.horizon sigma2 }
    ensures cells { thetas.new ≡ computed_cells r.entry.state.now r.entry.horizon sigma2 thetas.old }
{
    let n = r.horizon as usize;
    let mut means = [0i64; 512];
    forecasts(*r.state, r.horizon, &mut means)?;
    let mut c = [0u64; 512];
    coefficients(*r.state, r.horizon, &mut c)?;
    let mut c2 = [0.0f64; 512];
    squares(&c, n, &mut c2);
    let mut own = [0.0f64; 512];
    let sound = fill(&means, &c2, n, sigma2, &mut own);
    let v = spread(means[n - 1], sigma2, own[n - 1]);
    if sound & is_finite(v) {
        copy(&own, n, thetas);
        Ok(v)
    } else {
        Err(Rejection::NotFinite)
    }
}

// The variance of a horizon by the bits of σ², and θ of 1 to h in the first h elements of a buffer; a rejected call writes nothing.
pub fn relative_variance(
    s: State,
    h: u32,
    sigma2: u64,
    thetas: &mut [f64],
) -> Result<f64, Rejection>
    ensures answer { result ≡ relative_variance s h sigma2 (length thetas.old) }
    ensures buffer { thetas.new ≡ relative_cells s h sigma2 thetas.old }
{
    check_input(s, h, sigma2, thetas.len())?;
    let r = Request {
        state: &s,
        horizon: h,
    };
    computed(r, f64::from_bits(sigma2), thetas)
}
