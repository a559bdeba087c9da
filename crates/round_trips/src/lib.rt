// Saving and reading together: each function is a promise. It does nothing, and its contract is a theorem.
#![tactic(auto)]

ghost use Rattle.round_trips.specs.Promises.{ReadsSaved, SavesRead, Reopens};

// Reading what was saved gives the state, for every state that passes and every buffer with room.
pub fn reads_saved()
    ensures { ReadsSaved }
{}

// Saving what was read writes the same bytes, into every buffer with room.
pub fn saves_read()
    ensures { SavesRead }
{}

// A snapshot saved by 10 with gains outside the usual region opens by 18.
pub fn reopens()
    ensures { Reopens }
{}
