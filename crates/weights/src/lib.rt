// The definitions of the weights and the variance of a forecast, and what is promised of them: document 01, "Forecast and variance"; the weights by j modulo m:
// document 02, W-210. The code is in `weighting`.
#![tactic(auto)]

pub mod promises;

// In 2^32ths of a square reading unit, as two words.
#[derive(Clone, Copy)]
pub struct Variance {
    pub high: u64,
    pub low: u64,
}
