// What holds of the calls together: each function's promise is the theorem that its contract names.
ghost use Rattle.snapshot.specs.Promises.{RejectedState, Offsets, OldForms};

// No caller goes on unnoticed with the state beside a rejection.
pub fn rejected_state()
    ensures { RejectedState }
{}

// Where a rejection is told to stand.
pub fn offsets()
    ensures { Offsets }
{}

// Without its command 15 a snapshot with a score of zeros is read as the same state.
pub fn old_forms()
    ensures { OldForms }
{}
