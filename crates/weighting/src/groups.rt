// The squares of C by j modulo m: document 02, W-210.
ghost use Rattle.std.specs.Prelude.{◌≤◌, ◌≡◌, ◌++◌, length, drop, replicate};
ghost use Rattle.weights.specs.Groups.{group_count, groups, weight_groups, weight_group_cells};

use super::check_errors;
use super::sums::{coefficient, group_count, next_damping, next_remainder};
use horizons::Request;
use models::{ties_to_even, trend_of};
use state::{Rejection, State, unless};

// Sets the first n cells to 0, since a buffer may be lent with anything in it.
fn clear(n: usize, cells: &mut [u64])
    requires { n ≤ length cells.old }
    ensures { cells.new ≡ replicate n 0 ++ drop n cells.old }
{
    cells[..n].fill(0);
}

// The groups of a horizon that is not rejected, in the first cells of a buffer with room for them.
fn add_squares(r: Request<'_>, cells: &mut [u64])
    requires { group_count r.state.now ≤ length cells.old }
    ensures { cells.new ≡ groups r.entry.state.now r.entry.horizon ++ drop (group_count r.entry.state.now) cells.old }
{
    let s = r.state;
    let even = ties_to_even(s.model);
    let trend = trend_of(s.model);
    let m = group_count(s);
    clear(m as usize, cells);
    let mut p: u64 = 0;
    let mut k: u32 = 0;
    for j in 1..r.horizon {
        p = next_damping(even, trend, s.phi, p);
        k = next_remainder(k, m);
        let c = coefficient(r, even, trend, j, p, k);
        let i = k as usize;
        cells[i] = cells[i] + c * c;
    }
}

// The groups of a horizon in the first m elements of a buffer, or in the first without season; a rejected call writes nothing.
pub fn weight_groups(s: State, h: u32, cells: &mut [u64]) -> Result<(), Rejection>
    ensures answer { result ≡ weight_groups s h (length cells.old) }
    ensures buffer { cells.new ≡ weight_group_cells s h cells.old }
{
    check_errors(false, s, h)?;
    let fits = (group_count(&s) as usize) <= cells.len();
    unless(fits, Rejection::ShortBuffer)?;
    let r = Request {
        state: &s,
        horizon: h,
    };
    add_squares(r, cells);
    Ok(())
}
