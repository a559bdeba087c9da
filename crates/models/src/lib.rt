// The model byte, taken apart by masks and shifts and put together again, and the season lengths and parameters that a model allows:
// document 01, "Grains and states".
#![tactic(auto)]

ghost use Rattle.std.specs.Prelude.{◌≡◌, cond};
ghost use Rattle.models.specs.Models.{trend_of, season_of, has_trend, has_season, rounding_of, ties_to_even, to_even, errors_of, has_relative_errors, errors_are, model_byte, valid_model, period_ok, gain_ok, damping_ok, parameters_ok, usual_gains};

// 1 in the 65,536ths that the parameters are counted in: the greatest of each.
pub const ONE: u32 = 65536;

// The longest season, and the cells that a state has for it.
pub const MAX_PERIOD: u8 = 48;

pub fn trend_of(model: u8) -> u8
    ensures { result ≡ trend_of model }
{
    model & 3
}

pub fn season_of(model: u8) -> u8
    ensures { result ≡ season_of model }
{
    (model >> 2) & 1
}

pub fn has_trend(model: u8) -> bool
    ensures { result ≡ has_trend model }
{
    trend_of(model) != 0
}

pub fn has_season(model: u8) -> bool
    ensures { result ≡ has_season model }
{
    season_of(model) != 0
}

pub fn rounding_of(model: u8) -> u8
    ensures { result ≡ rounding_of model }
{
    (model >> 6) & 1
}

// The rounding rule: whether ties go to the even number, else up.
pub fn ties_to_even(model: u8) -> bool
    ensures { result ≡ ties_to_even model }
{
    rounding_of(model) != 0
}

// The byte with the rule set.
pub fn to_even(model: u8) -> u8
    ensures { result ≡ to_even model }
{
    model | 0x40
}

pub fn errors_of(model: u8) -> u8
    ensures { result ≡ errors_of model }
{
    (model >> 3) & 1
}

// The kind of the errors: whether they are multiplicative, else additive.
pub fn has_relative_errors(model: u8) -> bool
    ensures { result ≡ has_relative_errors model }
{
    errors_of(model) != 0
}

// No bit but those of the trend, the season, the errors and the rounding rule, and no trend 3.
pub fn model_ok(model: u8) -> bool
    ensures { result ≡ valid_model model }
{
    (model & 0xb0 == 0) & (trend_of(model) != 3)
}

// The byte put together from its parts, as saving writes it.
pub fn model_byte(model: u8) -> u8
    ensures { result ≡ model_byte model }
{
    trend_of(model) | (season_of(model) << 2) | (errors_of(model) << 3) | (rounding_of(model) << 6)
}

// One of two, so that the checks have no branch of their own.
pub fn pick(b: bool, x: bool, y: bool) -> bool
    ensures { result ≡ cond b x y }
{
    if b { x } else { y }
}

// Whether the errors are of a kind: multiplicative or additive.
pub fn errors_are(relative: bool, model: u8) -> bool
    ensures { result ≡ errors_are relative model }
{
    let found = has_relative_errors(model);
    pick(relative, found, !found)
}

pub fn period_ok(model: u8, m: u8) -> bool
    ensures { result ≡ period_ok model m }
{
    pick(has_season(model), (2 <= m) & (m <= MAX_PERIOD), m == 0)
}

fn gain_ok(has: bool, x: u32) -> bool
    ensures { result ≡ gain_ok has x }
{
    pick(has, x <= ONE, x == 0)
}

fn damping_ok(trend: u8, f: u32) -> bool
    ensures { result ≡ damping_ok trend f }
{
    pick(
        trend == 0,
        f == 0,
        pick(trend == 1, f == ONE, (1 <= f) & (f <= 65535)),
    )
}

pub fn parameters_ok(model: u8, a: u32, b: u32, g: u32, f: u32) -> bool
    ensures { result ≡ parameters_ok model a b g f }
{
    (a <= ONE)
        & gain_ok(has_trend(model), b)
        & gain_ok(has_season(model), g)
        & damping_ok(trend_of(model), f)
}

// The usual region of the gains; the sum of any two has room in 64 bits.
pub fn usual_gains(a: u32, b: u32, g: u32) -> bool
    ensures { result ≡ usual_gains a b g }
{
    (b <= a) & ((a as u64) + (g as u64) <= (ONE as u64))
}
