// What holds of the definitions that the lines are written by.
ghost use Rattle.lines.specs.Lines.{Decimals, Cases};

pub fn decimals()
    ensures { Decimals }
{}

pub fn cases()
    ensures { Cases }
{}
