// Document 02, W-209: what follows 51 is answered as if all since 50 had never come. Each function is a promise: it does nothing, and its contract is a theorem.
#![tactic(auto)]

ghost use Rattle.rollbacks.specs.Rollbacks.{Rollbacks};
ghost use Rattle.rollbacks.specs.Pins.{Pins};

// Of every stream in which a state is kept and brought back, with no other 50 between.
pub fn rollbacks()
    ensures { Rollbacks }
{}

// It is no weaker than document 02 has it: streams that meet its conditions, one that needs them, and what names hold.
pub fn pins()
    ensures { Pins }
{}
