// What holds of forecasts and missing readings together, and of the bedside display's forecasts: each function's promise is the theorem that its contract names.
ghost use Rattle.forecasts.specs.Promises.{MissingForecasts, DisplayLaws};
ghost use Rattle.forecasts.specs.Pins.{Pins};

// The forecast at h after a missing reading is the forecast at h + 1 before it.
pub fn missing_forecasts()
    ensures { MissingForecasts }
{}

// Up to 48 the bedside display's answers and cells are the phone's; above it the state's checks reject, then 11, and no cell is touched.
pub fn display_laws()
    ensures { DisplayLaws }
{}

// Computed: the walk of a forecast by lists of clock changes, and its refusals in their order.
pub fn pins()
    ensures { Pins }
{}
