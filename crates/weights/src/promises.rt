// What holds of weights and their groups together: the promise is the theorem that its contract names.
ghost use Rattle.weights.specs.Promises.{Cases, GroupLaws};
ghost use Rattle.weights.specs.Pins.{Pins};

// 2^32 plus the groups is the weight, for every horizon, season length and model.
pub fn group_laws()
    ensures { GroupLaws }
{}

// Each case of the answers is told by document 01's number and its values.
pub fn cases()
    ensures { Cases }
{}

// Computed: coefficients, and the group of each square.
pub fn pins()
    ensures { Pins }
{}
