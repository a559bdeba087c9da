// What holds of the calls together: each function's promise is the theorem that its contract names.
ghost use Rattle.layout.specs.Promises.{Lengths, Sizes};

// Each case of a length is told by its number and its value.
pub fn lengths()
    ensures { Lengths }
{}

// A snapshot's length by its formula, with command 15 and without: the commands' lengths add up to it.
pub fn sizes()
    ensures { Sizes }
{}
