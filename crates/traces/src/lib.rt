// Lists of calls: document 01, "One step"; and of operations, which keep states too: document 02, W-209. The vocabulary is in specs/. Each function is a promise: it does nothing, and its contract is a theorem.
#![tactic(auto)]

ghost use Rattle.traces.specs.Laws.{CallLaws, InPlaceLaws, SliceLaws};
ghost use Rattle.traces.specs.Scores.{ScoreLaws};
ghost use Rattle.traces.specs.Operations.{OperationLaws};

// A call leaves a state that the next one can take, and answers a number for each cell that it filled and each forecast.
pub fn call_laws()
    ensures { CallLaws }
{}

// A call in place is the direct one.
pub fn in_place_laws()
    ensures { InPlaceLaws }
{}

// The slice that a call in place leaves holds the state that the list hands to the next.
pub fn slice_laws()
    ensures { SliceLaws }
{}

// The score after a list of calls is the opening one and the accepted real readings.
pub fn score_laws()
    ensures { ScoreLaws }
{}

// Keeping a state, going back and opening a new one leave what the next operation can take: a state and slots that pass.
pub fn operation_laws()
    ensures { OperationLaws }
{}
