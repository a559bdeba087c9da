// What holds of the calls that take lists of clock changes: each function's promise is the theorem that its contract names.
ghost use Rattle.clock.specs.Pins.{Pins};
ghost use Rattle.clock.specs.Promises.{CalendarLaws};

// With two empty lists a season of 24 places has the calls without lists; the forecast at h after a missing reading is the forecast at h + 1 before it, with the same lists; a
// window's answer is the largest forecast inside.
pub fn calendar_laws()
    ensures { CalendarLaws }
{}

// Computed: the ends of windows.
pub fn pins()
    ensures { Pins }
{}
