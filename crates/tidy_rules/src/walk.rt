// Walks that read segments.
ghost use Rattle.std.specs.Prelude.{◌≡◌, ◌^◌, ◌≤◌, ◌<◌, length};
ghost use Rattle.rows.specs.Layouts.{total, rows_in, Room};
ghost use Rattle.tidy_rules.specs.Segments.{Region, Owed};
ghost use Rattle.tidy_rules.specs.Walks.{at_row, extent, Alive, Finds, Counts, Hops};

use crate::GONE;
use rows::read::{argument_at, kind_at};
use rows::{Layout, NEGATIVE, POSITIVE};

// How many rows the segment at row `r` covers.
pub fn extent_at(b: &[u8], s: Layout, r: usize) -> usize
    requires { Room s (length b.now) × (r < total s) }
    ensures { (result ≡ extent (at_row (rows_in s b.now) r)) × (result < 2 ^ 32) }
{
    let k = kind_at(b, s, r);
    if k == POSITIVE || k == NEGATIVE {
        return 1;
    }
    argument_at(b, s, r)
}

// 1 for a segment that holds a tree, 0 for a dead one.
pub fn live_at(b: &[u8], s: Layout, r: usize) -> usize
    requires { Room s (length b.now) × (r < total s) }
    ensures { Alive (at_row (rows_in s b.now) r) result }
{
    usize::from(kind_at(b, s, r) != GONE)
}

// The first row from `from` on that begins a live segment, or `to` where there is none.
pub fn first_live(b: &[u8], s: Layout, from: usize, to: usize) -> usize
    requires { Room s (length b.now) × Region (rows_in s b.now) from to }
    ensures { Finds (rows_in s b.now) from to result }
{
    let mut at = from;
    while at < to {
        if kind_at(b, s, at) != GONE {
            return at;
        }
        at += argument_at(b, s, at);
    }
    at
}

// How many trees the segments from `from` to `to` hold.
pub fn count_live(b: &[u8], s: Layout, from: usize, to: usize) -> usize
    requires { Room s (length b.now) × Region (rows_in s b.now) from to }
    ensures { Counts (rows_in s b.now) from to result × (result ≤ total s) }
{
    let mut seen: usize = 0;
    let mut at = from;
    while at < to {
        seen += live_at(b, s, at);
        at += extent_at(b, s, at);
    }
    seen
}

// The row behind the first `owed` trees of the segments from `from` on.
pub fn hop(b: &[u8], s: Layout, from: usize, owed: usize) -> usize
    requires { Room s (length b.now) × Owed (rows_in s b.now) from (total s) owed }
    ensures { Hops (rows_in s b.now) from (total s) owed result }
{
    let mut at = from;
    let mut left = owed;
    while 0 < left {
        left -= live_at(b, s, at);
        at += extent_at(b, s, at);
    }
    at
}
