// The station's C calls, each of which returns the rejection's number or 0, on a lent slice that holds one snapshot: document 01, "Commands", and document 02, W-211.
#![tactic(auto)]

ghost use Rattle.std.specs.Prelude.{◌≡◌};
ghost use Rattle.in_place.specs.InPlace.{in_place_step_code, in_place_step_bytes, in_place_residual, in_place_missing_code, in_place_missing_bytes, in_place_switch_code, in_place_switch_bytes, in_place_forecast_code, in_place_forecast};

use in_place::{forecast, missing, step, switch_to_even};
use state::{code_of, number};

pub fn forecaster_step(snapshot: &mut [u8], reading: i32, residual: &mut i64) -> u8
    ensures code { result ≡ in_place_step_code snapshot.old reading }
    ensures bytes { snapshot.new ≡ in_place_step_bytes snapshot.old reading }
    ensures number { residual.new ≡ in_place_residual snapshot.old reading residual.old }
{
    match step(snapshot, reading) {
        Ok(e) => {
            *residual = e;
            0
        }
        Err(rejection) => number(rejection),
    }
}

pub fn forecaster_missing(snapshot: &mut [u8]) -> u8
    ensures code { result ≡ in_place_missing_code snapshot.old }
    ensures bytes { snapshot.new ≡ in_place_missing_bytes snapshot.old }
{
    code_of(missing(snapshot))
}

pub fn forecaster_switch_to_even(snapshot: &mut [u8]) -> u8
    ensures code { result ≡ in_place_switch_code snapshot.old }
    ensures bytes { snapshot.new ≡ in_place_switch_bytes snapshot.old }
{
    code_of(switch_to_even(snapshot))
}

pub fn forecaster_forecast(snapshot: &[u8], horizon: u32, value: &mut i64) -> u8
    ensures code { result ≡ in_place_forecast_code snapshot.now horizon }
    ensures number { value.new ≡ in_place_forecast snapshot.now horizon value.old }
{
    match forecast(snapshot, horizon) {
        Ok(v) => {
            *value = v;
            0
        }
        Err(rejection) => number(rejection),
    }
}
