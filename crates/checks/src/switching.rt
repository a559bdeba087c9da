// Document 02, W-211: a state goes over to rounding with ties to even.
ghost use Rattle.std.specs.Prelude.{◌≡◌};
ghost use Rattle.state.specs.Switching.{switch_to_even};

use super::check;
use models::to_even;
use state::{State, Switched};

// The state's checks, then bit 6 of its model byte is set; all its values are kept, and a second switch changes nothing.
pub fn switch_to_even(s: State) -> Switched
    ensures { result ≡ switch_to_even s }
{
    let outcome = check(s);
    let mut next = s;
    if outcome.is_ok() {
        next.model = to_even(s.model);
    }
    Switched {
        state: next,
        outcome,
    }
}
