// Computed runs that show why the limits of demand 3 have their conditions. Each function is a promise: it does nothing, and its contract is a theorem.
#![tactic(auto)]

ghost use Rattle.drift_runs.specs.ClockRuns.{ClocksWander};

// Clock changes that take effect carry a forecast beyond the season's limit.
pub fn clock_runs()
    ensures { ClocksWander }
{}
