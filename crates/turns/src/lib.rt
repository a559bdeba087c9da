// Clock changes (document 02, W-208): two lent lists of step counts, the first of steps at which place 2 is due and is skipped, the second of those at which it is used again.
#![tactic(auto)]

ghost use Rattle.std.specs.Prelude.{◌≡◌};
ghost use Rattle.calendars.specs.Calendars.{calendar_of, calendar_ok};
ghost use Rattle.calendars.specs.Turns.{next_index};
ghost use Rattle.calendars.specs.Walks.{walked};

use calendars::{Cursors, Walked, lists_ok, seek, stands_at};

// The seasonal index after p.
pub fn next_index(m: u8, p: u8) -> u8
    ensures { result ≡ next_index m p }
{
    let next = (p as u32) + 1;
    if next < (m as u32) { next as u8 } else { 0 }
}

// Whether the lists can be followed over a season of so many places; they are looked at only where it is a day's.
pub fn calendar_ok(period: u8, skipped: &[u64], repeated: &[u64]) -> bool
    ensures { result ≡ calendar_ok period (calendar_of skipped.now repeated.now) }
{
    if period == 24 {
        return lists_ok(skipped, repeated);
    }
    false
}

// Before the first step of a walk nothing is behind.
pub fn start() -> Cursors
    ensures { result ≡ record { skipped = 0; repeated = 0 } }
{
    Cursors {
        skipped: 0,
        repeated: 0,
    }
}

// The place that a step with a count uses, and the one after it; the lists are looked at only where place 2 is due.
pub fn walk(
    skipped: &[u64],
    repeated: &[u64],
    at: Cursors,
    period: u8,
    index: u8,
    count: u64,
) -> Walked
    ensures { result ≡ walked (calendar_of skipped.now repeated.now) at period index count }
{
    if index != 2 {
        return Walked {
            used: index,
            next: next_index(period, index),
            at,
        };
    }
    let found = Cursors {
        skipped: seek(skipped, at.skipped, count),
        repeated: seek(repeated, at.repeated, count),
    };
    if stands_at(skipped, found.skipped, count) {
        return Walked {
            used: 3,
            next: 4,
            at: found,
        };
    }
    if stands_at(repeated, found.repeated, count) {
        return Walked {
            used: 2,
            next: 2,
            at: found,
        };
    }
    Walked {
        used: 2,
        next: next_index(period, 2),
        at: found,
    }
}
