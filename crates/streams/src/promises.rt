// What holds of every stream and every session.
ghost use Rattle.streams.specs.Promises.{Sessions, Answers, Openings, Offsets, Switches, ErrorKinds, CheckpointLaws, Listing};

pub fn sessions()
    ensures { Sessions }
{}

pub fn answers()
    ensures { Answers }
{}

pub fn openings()
    ensures { Openings }
{}

pub fn offsets()
    ensures { Offsets }
{}

// What command 14 does.
pub fn switches()
    ensures { Switches }
{}

// Which models 31 and 32 are for.
pub fn error_kinds()
    ensures { ErrorKinds }
{}

// What commands 50 and 51 do.
pub fn checkpoint_laws()
    ensures { CheckpointLaws }
{}

// The document's listing, byte for byte.
pub fn listing()
    ensures { Listing }
{}
