// Demand 3 of document 01: rounding does not make a state wander. Each function is a promise: it does nothing, and its contract is a theorem.
#![tactic(auto)]

ghost use Rattle.drift.specs.Components.{ComponentForms, StepErrors, MissingErrors};
ghost use Rattle.drift.specs.ForecastErrors.{ForecastErrors};
ghost use Rattle.drift.specs.Limits.{Demand3};
ghost use Rattle.drift.specs.Pins.{Pins};
ghost use Rattle.drift.specs.ClockPins.{ClockPins};
ghost use Rattle.drift.specs.CheckpointPins.{CheckpointPins};

// Every list of operations from an opening state stays within the limits: calls, states kept and brought back (document 02, W-209), new snapshots.
pub fn demand3()
    ensures { Demand3 }
{}

// The limits are no weaker than document 01 has them: claims that fail, runs that come up to them, runs that need their conditions.
pub fn pins()
    ensures { Pins }
{}

// Nor over clock changes than document 02, W-208, has them.
pub fn clock_pins()
    ensures { ClockPins }
{}

// Nor over kept states than W-209 has them.
pub fn checkpoint_pins()
    ensures { CheckpointPins }
{}

// The exact step is the component form, for every model.
pub fn component_form()
    ensures { ComponentForms }
{}

// The step is within one unit of the exact step, for every model.
pub fn step_errors()
    ensures { StepErrors }
{}

// A missing reading is within half a unit of the exact one, for every model.
pub fn missing_errors()
    ensures { MissingErrors }
{}

// The forecast from the same state is exact without damping, and within h × (h + 1)/4 units with it.
pub fn forecast_errors()
    ensures { ForecastErrors }
{}
