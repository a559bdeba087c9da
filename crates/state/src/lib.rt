// The forecaster's state by value and the checks of a state handed in: document 01, "Grains and states".
#![tactic(auto)]

ghost use Rattle.std.specs.Prelude.{◌≡◌};
ghost use Rattle.state.specs.Rejections.{number, unless, outcome, outcome_code};
ghost use Rattle.state.specs.Pins.{Pins};
ghost use Rattle.state.specs.Regions.{RegionLaws};
ghost use Rattle.state.specs.Rounding.{Rounding};
ghost use Rattle.state.specs.Scores.{no_score};
ghost use Rattle.state.specs.States.{no_state};
ghost use Rattle.state.specs.Switching.{SwitchLaws};

// Why a call is refused: the refusals of documents 01 and 02, each by the papers' number.
#[derive(Clone, Copy, Debug, PartialEq, Eq)]
pub enum Rejection {
    InputTooLong = 1,
    UnknownCommand = 2,
    OutOfPlace = 3,
    Truncated = 4,
    BadModel = 5,
    BadPeriod = 6,
    BadParameter = 7,
    WrongIndex = 8,
    BadValue = 9,
    BadPosition = 10,
    BadHorizon = 11,
    ShortBuffer = 12,
    BadReading = 13,
    CountFull = 14,
    LeavesRange = 15,
    UnusualGains = 16,
    BadScore = 17,
    BadSigma2 = 18,
    NotFinite = 19,
    BadCalendar = 20,
    NoCheckpoint = 21,
}

// 2^40: level, trend and season values are at most that, and at least its negative.
pub const MAX_VALUE: i64 = 0x100_0000_0000;

// 2^48, the most steps that a state counts.
pub const MAX_COUNT: u64 = 0x1_0000_0000_0000;

// The score of a state: its real readings, and the sum of the squares of R(e) over them as a high and a low word.
#[derive(Clone, Copy)]
pub struct Score {
    pub readings: u64,
    pub high: u64,
    pub low: u64,
}

// Level, trend and season values are fixed-point numbers with 16 fraction bits (document 01's grains).
#[derive(Clone, Copy)]
pub struct State {
    // Whether command 18 opened it, for gains outside the usual region; else 10 did.
    pub outside: bool,
    pub model: u8,
    // The season length m.
    pub period: u8,
    // A, B, G and F of document 01: 65,536ths of α, β, γ and φ.
    pub alpha: u32,
    pub beta: u32,
    pub gamma: u32,
    pub phi: u32,
    pub level: i64,
    pub trend: i64,
    pub seasonal: [i64; 48],
    // The place p: the seasonal index that is due.
    pub index: u8,
    pub count: u64,
    pub score: Score,
}

// The numbers of a state that a reading moves and is moved by; the season value is the one at the seasonal index.
#[derive(Clone, Copy)]
pub struct Numbers {
    pub alpha: u32,
    pub beta: u32,
    pub gamma: u32,
    pub phi: u32,
    pub level: i64,
    pub trend: i64,
    pub season: i64,
    pub count: u64,
}

// No reading yet.
pub fn no_score() -> Score
    ensures { result ≡ no_score }
{
    Score {
        readings: 0,
        high: 0,
        low: 0,
    }
}

// What stands in the place of a state after a rejection: every call rejects it.
pub fn no_state() -> State
    ensures { result ≡ no_state }
{
    State {
        outside: false,
        model: 255,
        period: 0,
        alpha: 0,
        beta: 0,
        gamma: 0,
        phi: 0,
        level: 0,
        trend: 0,
        seasonal: [0; 48],
        index: 0,
        count: 0,
        score: no_score(),
    }
}

// The state that stands after a switch of its rounding rule.
#[derive(Clone, Copy)]
pub struct Switched {
    pub state: State,
    pub outcome: Result<(), Rejection>,
}

// A check: its rejection where the test fails.
pub fn unless(holds: bool, rejection: Rejection) -> Result<(), Rejection>
    ensures { result ≡ outcome (unless holds (number rejection)) }
{
    if holds { Ok(()) } else { Err(rejection) }
}

// The paper's number of a refusal.
pub fn number(rejection: Rejection) -> u8
    ensures { result ≡ number rejection }
{
    rejection as u8
}

// The paper's number of an answer's case, 0 where it is accepted.
pub fn code_of(done: Result<(), Rejection>) -> u8
    ensures { result ≡ outcome_code done }
{
    match done {
        Ok(()) => 0,
        Err(rejection) => number(rejection),
    }
}

// A promise: what the usual region changes of the checks.
pub fn region_laws()
    ensures { RegionLaws }
{}

// A promise: what R is by each rounding rule.
pub fn rounding_laws()
    ensures { Rounding }
{}

// A promise: what the switch of the rounding rule leaves.
pub fn switch_laws()
    ensures { SwitchLaws }
{}

// A promise, computed: the order of the checks, and what the switch of the rounding rule leaves.
pub fn pins()
    ensures { Pins }
{}
