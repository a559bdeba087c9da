// R of document 01, "One step", for every number of 64 bits.
#![tactic(auto)]

ghost use Rattle.std.specs.Prelude.{◌≡◌};
ghost use Rattle.rounding.specs.Wrapped.{wrapped};

use integers::{of_i64, to_i64};

// R(v): what is added before the shift makes it round to nearest. For ties to even it is one less where the whole part is even, without a branch.
// The sum is taken modulo 2^64, so that no v is excluded, and the compiler makes a plain sum of it: R(v) wherever v + 32768 fits (proofs/WrappedLaws).
// In this order: with odd added first to the constant, the compiler no longer takes the test of the rule out of a batch's loop.
pub fn round(even: bool, v: i64) -> i64
    ensures { result ≡ wrapped even v }
{
    let n = of_i64(v);
    let rule = even as u64;
    let odd = (n >> 16) & rule;
    let sum = n.wrapping_add(32768 - rule).wrapping_add(odd);
    to_i64(sum) >> 16
}
