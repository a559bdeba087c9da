// The arithmetic of a weight and its product with σ².
ghost use Rattle.std.specs.Prelude.{◌+◌, ◌*◌, ◌/◌, ◌%◌, ◌≤◌, ◌≡◌, cond, eqb, ltb};
ghost use Rattle.state.specs.Fixed.{share_nat, word_size};
ghost use Rattle.weights.specs.Weights.{coefficient, weight_of};
ghost use Rattle.weights.specs.Groups.{group_count};
ghost use Rattle.weights.specs.Facts.{At};

use horizons::Request;
use models::{has_season, ties_to_even, trend_of};
use rounding::round;
use state::State;
use weights::Variance;

// R(a × x). By each rule on its own, so that the compiler takes the test out of the loop below.
fn share(even: bool, a: u32, x: u64) -> u64
    requires { (a ≤ 65536) × (x ≤ 33619968) }
    ensures value { result ≡ share_nat even a x }
    ensures bound { result ≤ x }
{
    let v = ((a as u64) * x) as i64;
    if even {
        round(true, v) as u64
    } else {
        round(false, v) as u64
    }
}

// The next P; 0 where the trend is not damped and nothing uses it.
pub fn next_damping(even: bool, trend: u8, phi: u32, p: u64) -> u64
    requires { (phi ≤ 65536) × (p ≤ 33554432) }
    ensures value { result ≡ cond (ltb trend 2) 0 (share_nat even phi (p + 65536)) }
    ensures bound { result ≤ p + 65536 }
{
    if trend < 2 {
        return 0;
    }
    share(even, phi, p + 65536)
}

fn trend_term(even: bool, trend: u8, b: u32, j: u32, p: u64) -> u64
    requires { (b ≤ 65536) × (j ≤ 512) × (p ≤ 33554432) }
    ensures { (result ≡ cond (eqb trend 0) 0 (cond (eqb trend 1) (b * j) (share_nat even b p))) × (result ≤ 33554432) }
{
    if trend == 0 {
        return 0;
    }
    if trend == 1 {
        return (b as u64) * (j as u64);
    }
    share(even, b, p)
}

// m, or 1 without season.
pub fn group_count(s: &State) -> u8
    ensures { result ≡ group_count s.now }
{
    if has_season(s.model) { s.period } else { 1 }
}

// The remainder of j by m, from that of j − 1: no division in each turn.
pub fn next_remainder(k: u32, m: u8) -> u32
    requires { k ≤ 512 }
    ensures { (result ≡ cond (eqb (k + 1) m) 0 (k + 1)) × (result ≤ k + 1) }
{
    let n = k + 1;
    if n == (m as u32) { 0 } else { n }
}

// G where m divides j: where the remainder is 0.
fn season_term(g: u32, remainder: u32) -> u64
    ensures { (result ≡ cond (eqb remainder 0) g 0) × (result ≤ g) }
{
    if remainder == 0 { g as u64 } else { 0 }
}

// The coefficient C of j, from P and the remainder of j; without season G is 0, so that any remainder serves.
pub fn coefficient(r: Request<'_>, even: bool, trend: u8, j: u32, p: u64, k: u32) -> u64
    requires { At r.state.now even trend j p k }
    ensures value { result ≡ coefficient r.entry.state.now j }
    ensures bound { result ≤ 33685504 }
{
    let s = r.state;
    (s.alpha as u64) + trend_term(even, trend, s.beta, j, p) + season_term(s.gamma, k)
}

// The weight of a horizon that is not rejected.
pub fn weight_of(r: Request<'_>) -> u64
    ensures { result ≡ weight_of r.entry.state.now r.entry.horizon }
{
    let s = r.state;
    let even = ties_to_even(s.model);
    let trend = trend_of(s.model);
    let m = group_count(s);
    let mut sum: u64 = 0x1_0000_0000;
    let mut p: u64 = 0;
    let mut k: u32 = 0;
    for j in 1..r.horizon {
        p = next_damping(even, trend, s.phi, p);
        k = next_remainder(k, m);
        let c = coefficient(r, even, trend, j, p, k);
        sum = sum + c * c;
    }
    sum
}

// A weight times σ² in two words, from two products of 64 bits.
pub fn product(w: u64, sigma2: u32) -> Variance
    ensures { result ≡ record { high = w * sigma2 / word_size; low = w * sigma2 % word_size } }
{
    let v = sigma2 as u64;
    let low = (w % 0x1_0000_0000) * v;
    let mid = (w >> 32) * v + (low >> 32);
    Variance {
        high: mid >> 32,
        low: (mid % 0x1_0000_0000) * 0x1_0000_0000 + low % 0x1_0000_0000,
    }
}
