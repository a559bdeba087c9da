// The exports of the station's C calls, of the crate c_api, by the names that C callers link.
#![tactic(auto)]

ghost use Rattle.std.specs.Prelude.{◌≡◌};
ghost use Rattle.in_place.specs.InPlace.{in_place_step_code, in_place_step_bytes, in_place_residual, in_place_missing_code, in_place_missing_bytes, in_place_switch_code, in_place_switch_bytes, in_place_forecast_code, in_place_forecast};

#[unsafe(no_mangle)]
pub extern "C" fn forecaster_step(snapshot: &mut [u8], reading: i32, residual: &mut i64) -> u8
    ensures code { result ≡ in_place_step_code snapshot.old reading }
    ensures bytes { snapshot.new ≡ in_place_step_bytes snapshot.old reading }
    ensures number { residual.new ≡ in_place_residual snapshot.old reading residual.old }
{
    c_api::forecaster_step(snapshot, reading, residual)
}

#[unsafe(no_mangle)]
pub extern "C" fn forecaster_missing(snapshot: &mut [u8]) -> u8
    ensures code { result ≡ in_place_missing_code snapshot.old }
    ensures bytes { snapshot.new ≡ in_place_missing_bytes snapshot.old }
{
    c_api::forecaster_missing(snapshot)
}

#[unsafe(no_mangle)]
pub extern "C" fn forecaster_switch_to_even(snapshot: &mut [u8]) -> u8
    ensures code { result ≡ in_place_switch_code snapshot.old }
    ensures bytes { snapshot.new ≡ in_place_switch_bytes snapshot.old }
{
    c_api::forecaster_switch_to_even(snapshot)
}

#[unsafe(no_mangle)]
pub extern "C" fn forecaster_forecast(snapshot: &[u8], horizon: u32, value: &mut i64) -> u8
    ensures code { result ≡ in_place_forecast_code snapshot.now horizon }
    ensures number { value.new ≡ in_place_forecast snapshot.now horizon value.old }
{
    c_api::forecaster_forecast(snapshot, horizon, value)
}
