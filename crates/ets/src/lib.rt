// The recursion of Hyndman's ETS models on a state by value: document 01, "One step" and "Forecast and variance".
#![tactic(auto)]

pub mod promises;

use state::{Rejection, State};

// What a step is made of: the rounding rule (whether ties go to the even number), the gains, the level, the damped trend (document 01's d) and the season value that is due.
#[derive(Clone, Copy)]
pub struct Terms {
    pub even: bool,
    pub alpha: u32,
    pub beta: u32,
    pub gamma: u32,
    pub level: i64,
    pub damped: i64,
    pub season: i64,
}

// What a reading makes of them.
#[derive(Clone, Copy)]
pub struct Update {
    pub level: i64,
    pub trend: i64,
    pub season: i64,
    pub residual: i64,
}

// The state that stands after a reading, and the residual (document 01's e) or the rejection.
#[derive(Clone, Copy)]
pub struct Stepped {
    pub state: State,
    pub residual: Result<i64, Rejection>,
}

// The state that stands after a missing reading.
#[derive(Clone, Copy)]
pub struct Missed {
    pub state: State,
    pub outcome: Result<(), Rejection>,
}

// The state that stands after a batch, and how many readings it took.
#[derive(Clone, Copy)]
pub struct Batched {
    pub state: State,
    pub taken: usize,
    pub outcome: Result<(), Rejection>,
}
