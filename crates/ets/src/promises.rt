// What holds of a missing reading: the function's promise is the theorem that its contract names.
ghost use Rattle.ets.specs.Promises.{MissingLaws};
ghost use Rattle.ets.specs.Pins.{Pins};

// Without trend a missing reading is as document 01 has it; of every model it is the step with residual 0.
pub fn missing_laws()
    ensures { MissingLaws }
{}

// Computed: a missing reading, the place of the checks, and readings by lists of clock changes.
pub fn pins()
    ensures { Pins }
{}
