// Entry points of the benchmark: calls that the station's C interface does not have, on a lent slice that holds one snapshot.
// Each returns the rejection's number or 0, as the station's calls do; a rejected call leaves the cells and the lent weight as found.
#![tactic(auto)]

mod calls;

ghost use Rattle.std.specs.Prelude.{◌≡◌, length};
ghost use Rattle.calendars.specs.Calendars.{calendar_of};
ghost use Rattle.bench_api.specs.Snapshots.{batch_code, batch_taken, batch_cells, batch_on_code, batch_on_taken, batch_on_cells, all_code, all_cells, all_on_code, all_on_cells, in_place_weight_code, in_place_weight, in_place_groups_code, in_place_group_cells, in_place_relative_code, in_place_relative_value, in_place_relative_cells};

use state::{code_of, number};

// The readings taken are told in every case: 0 where a check before the first of them stops the batch.
#[unsafe(no_mangle)]
pub extern "C" fn bench_batch(
    snapshot: &[u8],
    readings: &[i32],
    levels: &mut [i64],
    taken: &mut usize,
) -> u8
    ensures code { result ≡ batch_code snapshot.now readings.now (length levels.old) }
    ensures number { taken.new ≡ batch_taken snapshot.now readings.now (length levels.old) }
    ensures buffer { levels.new ≡ batch_cells snapshot.now readings.now levels.old }
{
    code_of(calls::batch(snapshot, readings, levels, taken))
}

// The same by two lists of clock changes (W-208).
#[unsafe(no_mangle)]
pub extern "C" fn bench_batch_on(
    snapshot: &[u8],
    skipped: &[u64],
    repeated: &[u64],
    readings: &[i32],
    levels: &mut [i64],
    taken: &mut usize,
) -> u8
    ensures code { result ≡ batch_on_code snapshot.now (calendar_of skipped.now repeated.now) readings.now (length levels.old) }
    ensures number { taken.new ≡ batch_on_taken snapshot.now (calendar_of skipped.now repeated.now) readings.now (length levels.old) }
    ensures buffer { levels.new ≡ batch_on_cells snapshot.now (calendar_of skipped.now repeated.now) readings.now levels.old }
{
    code_of(calls::batch_on(snapshot, skipped, repeated, readings, levels, taken))
}

#[unsafe(no_mangle)]
pub extern "C" fn bench_forecasts(snapshot: &[u8], horizon: u32, values: &mut [i64]) -> u8
    ensures code { result ≡ all_code snapshot.now horizon (length values.old) }
    ensures buffer { values.new ≡ all_cells snapshot.now horizon values.old }
{
    code_of(calls::forecasts(snapshot, horizon, values))
}

// The same by two lists of clock changes (W-208).
#[unsafe(no_mangle)]
pub extern "C" fn bench_forecasts_on(
    snapshot: &[u8],
    skipped: &[u64],
    repeated: &[u64],
    horizon: u32,
    values: &mut [i64],
) -> u8
    ensures code { result ≡ all_on_code snapshot.now (calendar_of skipped.now repeated.now) horizon (length values.old) }
    ensures buffer { values.new ≡ all_on_cells snapshot.now (calendar_of skipped.now repeated.now) horizon values.old }
{
    code_of(calls::forecasts_on(snapshot, skipped, repeated, horizon, values))
}

#[unsafe(no_mangle)]
pub extern "C" fn bench_weight(snapshot: &[u8], horizon: u32, value: &mut u64) -> u8
    ensures code { result ≡ in_place_weight_code snapshot.now horizon }
    ensures number { value.new ≡ in_place_weight snapshot.now horizon value.old }
{
    match calls::weight(snapshot, horizon) {
        Ok(w) => {
            *value = w;
            0
        }
        Err(rejection) => number(rejection),
    }
}

#[unsafe(no_mangle)]
pub extern "C" fn bench_weight_groups(snapshot: &[u8], horizon: u32, cells: &mut [u64]) -> u8
    ensures code { result ≡ in_place_groups_code snapshot.now horizon (length cells.old) }
    ensures buffer { cells.new ≡ in_place_group_cells snapshot.now horizon cells.old }
{
    code_of(calls::weight_groups(snapshot, horizon, cells))
}

#[unsafe(no_mangle)]
pub extern "C" fn bench_relative_variance(
    snapshot: &[u8],
    horizon: u32,
    sigma2: u64,
    value: &mut f64,
    thetas: &mut [f64],
) -> u8
    ensures code { result ≡ in_place_relative_code snapshot.now horizon sigma2 (length thetas.old) }
    ensures number { value.new ≡ in_place_relative_value snapshot.now horizon sigma2 (length thetas.old) value.old }
    ensures buffer { thetas.new ≡ in_place_relative_cells snapshot.now horizon sigma2 thetas.old }
{
    match calls::relative_variance(snapshot, horizon, sigma2, thetas) {
        Ok(v) => {
            *value = v;
            0
        }
        Err(rejection) => number(rejection),
    }
}
