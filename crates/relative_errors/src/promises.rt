// What holds of the variances of multiplicative errors: each function's promise is the theorem that its contract names.
ghost use Rattle.relative_errors.specs.Promises.{Cases, AcceptedIsFinite, NothingLost};
ghost use Rattle.relative_errors.specs.ErrorKinds.{KindLaws};
ghost use Rattle.relative_errors.specs.Pins.{Pins};

// Each case of the answer is told by document 01's number and its value.
pub fn cases()
    ensures { Cases }
{}

// Each double of an accepted answer is finite.
pub fn accepted_is_finite()
    ensures { AcceptedIsFinite }
{}

// The divisions by 65536 lose nothing.
pub fn nothing_lost()
    ensures { NothingLost }
{}

// Steps, batches and point forecasts are the same whole numbers for both kinds of errors; each variance is for one of them.
pub fn kind_laws()
    ensures { KindLaws }
{}

// Computed: T3's state with multiplicative errors, and the order of the refusals.
pub fn pins()
    ensures { Pins }
{}
