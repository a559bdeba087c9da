// Commands written over a lent slice, each in the place that it has in a saved snapshot. A slice without room stays as it is.
ghost use Rattle.std.specs.Prelude.{◌≡◌, true};
ghost use Rattle.layout.specs.Layout.{level_at, score_at, season_at, position_at};
ghost use Rattle.saving.specs.Encoding.{level_bytes, score_bytes, season_bytes, position_bytes};
ghost use Rattle.saving.specs.Saving.{snapshot_written, written};

use super::writing::{write_level, write_position, write_score, write_season, write_snapshot};
use layout::{SCORE_AT, SCORE_LENGTH, SEASON_LENGTH, season_at, size_of};
use models::MAX_PERIOD;
use state::{Score, State};

// The command 11, which ends where 15 begins.
pub fn rewrite_level(d: &mut [u8], level: i64, trend: i64)
    ensures { d.new ≡ written d.old level_at (level_bytes level trend) }
{
    if SCORE_AT <= d.len() {
        write_level(d, level, trend);
    }
}

// The command 15.
pub fn rewrite_score(d: &mut [u8], s: Score)
    ensures { d.new ≡ written d.old score_at (score_bytes s) }
{
    if SCORE_AT + SCORE_LENGTH <= d.len() {
        write_score(d, s);
    }
}

// The command 12 of index k.
pub fn rewrite_season(d: &mut [u8], k: u8, v: i64)
    ensures { d.new ≡ written d.old (season_at true k) (season_bytes k v) }
{
    if season_at(true, k) + SEASON_LENGTH <= d.len() {
        write_season(d, k, v);
    }
}

// The command 13, after m places.
pub fn rewrite_position(d: &mut [u8], m: u8, index: u8, count: u64)
    ensures { d.new ≡ written d.old (position_at true m) (position_bytes index count) }
{
    if size_of(m) <= d.len() {
        write_position(d, m, index, count);
    }
}

// All commands: the snapshot of a state.
pub fn rewrite_snapshot(d: &mut [u8], s: State)
    ensures { d.new ≡ snapshot_written s d.old }
{
    if (s.period <= MAX_PERIOD) & (size_of(s.period) <= d.len()) {
        write_snapshot(d, s);
    }
}
