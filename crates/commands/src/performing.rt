// What stands after a command, by what it made of the session's state. A rejected one leaves everything as it was.
ghost use Rattle.std.specs.Prelude.{◌≡◌, ◌≤◌, length};
ghost use Rattle.commands.specs.Commands.{settled, finish, open_snapshot};

use super::{Performed, Session};
use actions::Action;
use actions::copies::open_snapshot;
use replies::Reply;

// With the offset of the session and whether a state was open, the offset after the command, and that of what is rejected.
pub fn settle(at: usize, active: bool, next: usize, offset: usize, action: Action) -> Performed
    ensures { result ≡ settled at active next offset action }
{
    let state = action.state;
    match action.answer {
        Ok(reply) => Performed {
            reply,
            session: Session {
                at: next,
                active: true,
                state,
            },
        },
        Err(rejection) => Performed {
            reply: Reply::Rejected { rejection, offset },
            session: Session { at, active, state },
        },
    }
}

pub fn finish(x: Session) -> Performed
    ensures { result ≡ finish x }
{
    let count = if x.active { x.state.count } else { 0 };
    Performed {
        reply: Reply::Ended(count),
        session: x,
    }
}

pub fn open(s: &[u8], x: Session) -> Performed
    requires { x.at ≤ length s.now }
    ensures { result ≡ open_snapshot s.now x }
{
    let at = x.at;
    let found = open_snapshot(x.state, &s[at..]);
    let next = at + found.size;
    let action = found.action;
    settle(at, x.active, next, next, action)
}
