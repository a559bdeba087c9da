// A reading and a missing reading on a state by value.
ghost use Rattle.std.specs.Prelude.{◌≡◌, ◌<◌};
ghost use Rattle.state.specs.Fixed.{max_count};
ghost use Rattle.models.specs.Models.{ties_to_even};
ghost use Rattle.state.specs.Rejections.{accepting, rejects};
ghost use Rattle.state.specs.States.{check};
ghost use Rattle.ets.specs.Steps.{step, missing};
ghost use Rattle.ets.specs.Updates.{missing_update, numbers_of, reading_update, stored};

use super::arithmetic::{missing_update, reading_update, score_after};
use checks::check;
use ets::{Missed, Stepped, Update};
use models::ties_to_even;
use state::{Numbers, Rejection, Score, State};
use turns::next_index;

// The numbers of a state that a step reads.
fn numbers_of(s: State) -> Numbers
    requires { s.index < 48 }
    ensures { result ≡ numbers_of s }
{
    let p = s.index as usize;
    let season = s.seasonal[p];
    Numbers {
        alpha: s.alpha,
        beta: s.beta,
        gamma: s.gamma,
        phi: s.phi,
        level: s.level,
        trend: s.trend,
        season,
        count: s.count,
    }
}

// The state one step on, with an update's numbers and a score.
fn store(s: State, u: Update, score: Score) -> State
    requires { (s.index < 48) × (s.count < max_count) }
    ensures { result ≡ stored s u score }
{
    let p = s.index as usize;
    let mut next = s;
    next.level = u.level;
    next.trend = u.trend;
    let season = u.season;
    next.seasonal[p] = season;
    next.index = next_index(s.period, s.index);
    next.count = s.count + 1;
    next.score = score;
    next
}

// The checks of a state, then the update that a reading makes.
fn try_step(s: State, y: i32) -> Result<Update, Rejection>
    ensures { result ≡ accepting (check s) (reading_update (ties_to_even s.model) (numbers_of s) y) rejects }
{
    check(s)?;
    reading_update(ties_to_even(s.model), numbers_of(s), y)
}

// A rejected call hands back the state as it came.
pub fn step(s: State, y: i32) -> Stepped
    ensures { result ≡ step s y }
{
    match try_step(s, y) {
        Ok(u) => {
            let score = score_after(ties_to_even(s.model), s.score, u.residual);
            Stepped {
                state: store(s, u, score),
                residual: Ok(u.residual),
            }
        }
        Err(rejection) => Stepped {
            state: s,
            residual: Err(rejection),
        },
    }
}

fn try_missing(s: State) -> Result<Update, Rejection>
    ensures { result ≡ accepting (check s) (missing_update (ties_to_even s.model) (numbers_of s)) rejects }
{
    check(s)?;
    missing_update(ties_to_even(s.model), numbers_of(s))
}

pub fn missing(s: State) -> Missed
    ensures { result ≡ missing s }
{
    match try_missing(s) {
        Ok(u) => Missed {
            state: store(s, u, s.score),
            outcome: Ok(()),
        },
        Err(rejection) => Missed {
            state: s,
            outcome: Err(rejection),
        },
    }
}
