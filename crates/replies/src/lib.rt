// The answers to a stream's commands, each as a letter and up to three numbers or without a line: document 01, "The program's lines".
#![tactic(auto)]

ghost use Rattle.std.specs.Prelude.{◌≡◌, Some, None};
ghost use Rattle.replies.specs.Replies.{fields, fields_of, is_last};

use state::{Rejection, number};

// The answer to a command, by the letter of its line.
#[derive(Clone, Copy)]
pub enum Reply {
    // O
    Opened { model: u8, period: u8 },
    // E
    Residual(i64),
    // M
    Missing,
    // F
    Forecast { horizon: u32, value: i64 },
    // V
    Variance { horizon: u32, high: u64, low: u64 },
    // S: how many bytes were saved
    Saved(u32),
    // X
    Rejected { rejection: Rejection, offset: usize },
    // N
    Ended(u64),
    // No line: the answer to an accepted command that prints none (document 02, W-211: 14).
    Silent,
    // W: the variance of multiplicative errors, by the 64 bits of its double (document 02, W-205)
    RelativeVariance { horizon: u32, bits: u64 },
}

// A number of a line, with the blank before it.
#[derive(Clone, Copy)]
pub enum Number {
    Unsigned(u64),
    Signed(i64),
    // So many of the bytes saved.
    Hexadecimal(u32),
}

#[derive(Clone, Copy)]
pub struct Fields {
    pub letter: u8,
    pub first: Option<Number>,
    pub second: Option<Number>,
    pub third: Option<Number>,
}

fn three(
    letter: u8,
    first: Option<Number>,
    second: Option<Number>,
    third: Option<Number>,
) -> Option<Fields>
    ensures { result ≡ fields letter first second third }
{
    Some(Fields {
        letter,
        first,
        second,
        third,
    })
}

fn one(letter: u8, first: Number) -> Option<Fields>
    ensures { result ≡ fields letter (Some first) None None }
{
    three(letter, Some(first), None, None)
}

fn two(letter: u8, first: u64, second: Number) -> Option<Fields>
    ensures { result ≡ fields letter (Some (Number.Unsigned first)) (Some second) None }
{
    three(letter, Some(Number::Unsigned(first)), Some(second), None)
}

// The letter and the numbers of each reply's line; none of an answer without a line (document 02, W-211).
pub fn fields_of(r: Reply) -> Option<Fields>
    ensures { result ≡ fields_of r }
{
    match r {
        Reply::Opened { model, period } => two(b'O', model as u64, Number::Unsigned(period as u64)),
        Reply::Residual(e) => one(b'E', Number::Signed(e)),
        Reply::Missing => three(b'M', None, None, None),
        Reply::Forecast { horizon, value } => two(b'F', horizon as u64, Number::Signed(value)),
        Reply::Variance { horizon, high, low } => three(
            b'V',
            Some(Number::Unsigned(horizon as u64)),
            Some(Number::Unsigned(high)),
            Some(Number::Unsigned(low)),
        ),
        Reply::Saved(n) => one(b'S', Number::Hexadecimal(n)),
        Reply::Rejected { rejection, offset } => two(
            b'X',
            number(rejection) as u64,
            Number::Unsigned(offset as u64),
        ),
        Reply::Ended(count) => one(b'N', Number::Unsigned(count)),
        Reply::Silent => None,
        Reply::RelativeVariance { horizon, bits } => two(
            b'W',
            horizon as u64,
            Number::Unsigned(bits),
        ),
    }
}

// X and N are a stream's last answers.
pub fn is_last(reply: Reply) -> bool
    ensures { result ≡ is_last reply }
{
    matches!(reply, Reply::Rejected { .. } | Reply::Ended(_))
}
