// The sums of a forecast, from a state that passed its checks.
ghost use Rattle.std.specs.Prelude.{◌≡◌, ◌++◌, ◌≤◌, ◌<◌, length, drop};
ghost use Rattle.integers.specs.Bounds.{Within};
ghost use Rattle.state.specs.Fixed.{share, max_value};
ghost use Rattle.calendars.specs.Calendars.{calendar_of};
ghost use Rattle.ets.specs.Bounds.{Walkable};
ghost use Rattle.forecasts.specs.Forecasts.{trend_line, season_at};
ghost use Rattle.forecasts.specs.Calendars.{place_by, forecast_list_by};

use horizons::Request;
use models::{has_season, ties_to_even};
use rounding::round;
use turns::{start, walk};

// R(a × x): the share that a parameter gives of x. By each rule on its own, so that the compiler takes the test out of the loops below.
fn share(even: bool, a: u32, x: i64) -> i64
    requires { (a ≤ 65536) × Within 8796093022208 x }
    ensures { result ≡ share even a x }
{
    let v = (a as i64) * x;
    if even {
        round(true, v)
    } else {
        round(false, v)
    }
}

// The level and the trends of h steps.
pub fn trend_line(even: bool, level: i64, phi: u32, trend: i64, h: u32) -> i64
    requires { (phi ≤ 65536) × Within max_value level × Within max_value trend × (h ≤ 512) }
    ensures value { result ≡ trend_line even level phi trend h }
    ensures bound { Within 564049465049088 result }
{
    let mut line = level;
    let mut d = trend;
    for j in 0..h {
        d = share(even, phi, d);
        line = line + d;
    }
    line
}

// The season value of the request's horizon.
pub fn season_at(r: Request<'_>) -> i64
    ensures value { result ≡ season_at r.entry.state.now r.entry.horizon }
    ensures bound { Within max_value result }
{
    let s = r.state;
    if !has_season(s.model) {
        return 0;
    }
    let p = s.index as u32;
    let m = s.period as u32;
    let k = ((p + r.horizon - 1) % m) as usize;
    s.seasonal[k]
}

// The place of the request's horizon: the one that its step uses.
pub fn place_at(r: Request<'_>, skipped: &[u64], repeated: &[u64]) -> u8
    requires { Walkable (calendar_of skipped.now repeated.now) r.state.now.period }
    ensures value { result ≡ place_by (calendar_of skipped.now repeated.now) r.entry.state.now r.entry.horizon }
    ensures bound { result < 48 }
{
    let s = r.state;
    let mut used = s.index;
    let mut p = s.index;
    let mut n = s.count;
    let mut at = start();
    for _ in 0..r.horizon {
        let t = walk(skipped, repeated, at, s.period, p, n);
        used = t.used;
        p = t.next;
        at = t.at;
        n += 1;
    }
    used
}

// The forecasts for the horizons 1 to the request's: the trend and the seasonal index move on from one to the next, and the lists of clock changes are walked once.
pub fn fill(r: Request<'_>, skipped: &[u64], repeated: &[u64], values: &mut [i64])
    requires { Walkable (calendar_of skipped.now repeated.now) r.state.now.period × (r.horizon ≤ length values.old) }
    ensures { values.new ≡ forecast_list_by (calendar_of skipped.now repeated.now) r.entry.state.now r.entry.horizon ++ drop r.entry.horizon values.old }
{
    let s = r.state;
    let even = ties_to_even(s.model);
    let mut line = s.level;
    let mut d = s.trend;
    let mut p = s.index;
    let mut n = s.count;
    let mut at = start();
    let h = r.horizon as usize;
    for i in 0..h {
        d = share(even, s.phi, d);
        line = line + d;
        let t = walk(skipped, repeated, at, s.period, p, n);
        let k = t.used as usize;
        let season = s.seasonal[k];
        values[i] = line + season;
        p = t.next;
        at = t.at;
        n += 1;
    }
}
