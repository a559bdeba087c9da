// Document 02, W-207: a damped model without season does not wander either. Each function is a promise: it does nothing, and its contract is a theorem.
#![tactic(auto)]

ghost use Rattle.damped.specs.Limits.{OneStepForecasts};
ghost use Rattle.damped.specs.Pins.{Pins};

// Every list of operations has its forecasts for horizon 1 within 1/K while such a model stands.
pub fn one_step_forecasts()
    ensures { OneStepForecasts }
{}

// The limit is no weaker than document 02 has it: claims that fail, runs that come up to it, runs that need its conditions.
pub fn pins()
    ensures { Pins }
{}
