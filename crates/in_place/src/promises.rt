// What holds of the calls together: each function's promise is the theorem that its contract names.
ghost use Rattle.in_place.specs.Promises.{InPlaceIsDirect};

// A call in place is the direct call on the state that its slice holds.
pub fn in_place_is_direct()
    ensures { InPlaceIsDirect }
{}
