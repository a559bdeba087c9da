// A calendar of clock changes (document 02, W-208): two lists of step counts, tested in one pass and walked by cursors.
#![tactic(auto)]

ghost use Rattle.std.specs.Prelude.{◌≡◌};
ghost use Rattle.calendars.specs.Calendars.{below_first, rising, lists_ok};
ghost use Rattle.calendars.specs.Cursors.{seek, stands_at};

// How many counts of each list of clock changes are behind.
#[derive(Clone, Copy)]
pub struct Cursors {
    pub skipped: usize,
    pub repeated: usize,
}

// The turn of a step by the lists, and the cursors for the next one.
#[derive(Clone, Copy)]
pub struct Walked {
    pub used: u8,
    pub next: u8,
    pub at: Cursors,
}

// Whether a count is below the first of a list, if there is one.
fn below_first(count: u64, list: &[u64]) -> bool
    ensures { result ≡ below_first count list.now }
{
    list.first().is_none_or(|first| count < *first)
}

// Whether the counts of a list rise.
fn rising(list: &[u64]) -> bool
    ensures { result ≡ rising list.now }
{
    list.is_sorted_by(|x, y| x < y)
}

// Whether both lists rise and no count is in both, each count looked at once.
pub fn lists_ok(xs: &[u64], ys: &[u64]) -> bool
    ensures { result ≡ lists_ok xs.now ys.now }
{
    let mut first = xs;
    let mut second = ys;
    while let ([x, after_x @ ..], [y, after_y @ ..]) = (first, second) {
        if x < y {
            if !below_first(*x, after_x) {
                return false;
            }
            first = after_x;
        } else if y < x {
            if !below_first(*y, after_y) {
                return false;
            }
            second = after_y;
        } else {
            return false;
        }
    }
    rising(first) && rising(second)
}

// The cursor moved past the counts below n.
pub fn seek(counts: &[u64], from: usize, n: u64) -> usize
    ensures { result ≡ seek counts.now from n }
{
    for k in from..counts.len() {
        if n <= counts[k] {
            return k;
        }
    }
    from.max(counts.len())
}

// Whether n stands at a cursor.
pub fn stands_at(counts: &[u64], k: usize, n: u64) -> bool
    ensures { result ≡ stands_at counts.now k n }
{
    counts.get(k) == Some(&n)
}
