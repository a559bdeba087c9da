// The coefficients C for all j up to a horizon, in a lent buffer.
ghost use Rattle.std.specs.Prelude.{◌≤◌, ◌≡◌, ◌++◌, length, drop};
ghost use Rattle.weights.specs.Coefficients.{coefficient_list, coefficients, coefficient_cells};

use super::sums::{coefficient, group_count, next_damping, next_remainder};
use horizons::{MAX_HORIZON, Request, check_forecasts_to};
use models::{ties_to_even, trend_of};
use state::{Rejection, State};

// The coefficients for 1 to the request's horizon: P and the remainder move on from one to the next.
fn fill(r: Request<'_>, cells: &mut [u64])
    requires { r.horizon ≤ length cells.old }
    ensures { cells.new ≡ coefficient_list r.entry.state.now r.entry.horizon ++ drop r.entry.horizon cells.old }
{
    let s = r.state;
    let even = ties_to_even(s.model);
    let trend = trend_of(s.model);
    let m = group_count(s);
    let mut p: u64 = 0;
    let mut k: u32 = 0;
    for j in 0..r.horizon {
        p = next_damping(even, trend, s.phi, p);
        k = next_remainder(k, m);
        let c = coefficient(r, even, trend, j + 1, p, k);
        let i = j as usize;
        cells[i] = c;
    }
}

// The coefficients for all j to h, in the first h elements of a buffer; a rejected call writes nothing.
pub fn coefficients(s: State, h: u32, cells: &mut [u64]) -> Result<(), Rejection>
    ensures answer { result ≡ coefficients s h (length cells.old) }
    ensures buffer { cells.new ≡ coefficient_cells s h cells.old }
{
    check_forecasts_to(MAX_HORIZON, s, h, cells.len())?;
    let r = Request {
        state: &s,
        horizon: h,
    };
    fill(r, cells);
    Ok(())
}
