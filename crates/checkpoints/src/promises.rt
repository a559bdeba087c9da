// What holds of keeping and going back. Each function is a promise: it does nothing, and its contract is a theorem.
ghost use Rattle.checkpoints.specs.Promises.{StoresBack, Restored, NothingKept};

// What was stored in a slot is restored from it, whole, and the other slots hold what they held.
pub fn stores_back()
    ensures { StoresBack }
{}

// What is restored passes its checks, whatever the buffer holds.
pub fn restored_passes()
    ensures { Restored }
{}

// A buffer of zeros holds nothing.
pub fn nothing_at_first()
    ensures { NothingKept }
{}
