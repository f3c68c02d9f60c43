// Rows that have gone are left out, and the others are moved together.
ghost use Rattle.std.specs.Prelude.{◌≡◌, ◌^◌, ◌≤◌, ◌<◌, length};
ghost use Rattle.rows.specs.Layouts.{total, rows_in, Room};
ghost use Rattle.tidy_rules.specs.Walks.{at_row};
ghost use Rattle.tidying.specs.Inner.Packed.{stride, ToldAt, ToldRegion, ArgumentTold, Puts, Packs};
ghost use Rattle.tidying.specs.Inner.Tables.{InPlace};

use buckets::half::children_of;
use buckets::large;
use rows::read::{argument_at, kind_at};
use rows::write::set_row;
use rows::{Layout, NEGATIVE};
use tidy_rules::GONE;

// How many rows further the next row is that may be packed: a dead segment is passed as a whole.
pub fn stride_at(b: &[u8], s: Layout, r: usize) -> usize
    requires { Room s (length b.now) × (r < total s) }
    ensures { (result ≡ stride (at_row (rows_in s b.now) r)) × (result < 2 ^ 32) }
{
    if kind_at(b, s, r) == GONE {
        return argument_at(b, s, r);
    }
    1
}

// The argument that the row of the live segment at `at` has in a sheet; for an operator it is the number of children, which the table has.
pub fn argument_told(b: &[u8], s: Layout, at: usize, known: &[u32]) -> usize
    requires { InPlace s b.now known.now × (at < total s) }
    ensures { ArgumentTold (rows_in s b.now) known.now at result }
{
    if kind_at(b, s, at) <= NEGATIVE {
        return argument_at(b, s, at);
    }
    children_of(large(known[at]))
}

// Copies the row of the segment at `at` to row `to`, if it is live, and returns the row behind those packed.
pub fn put_live(b: &mut [u8], s: Layout, at: usize, to: usize, known: &[u32]) -> usize
    requires { InPlace s b.old known.now × ToldAt (rows_in s b.old) known.now at × (to ≤ at) }
    ensures { Puts (rows_in s b.old) (rows_in s b.new) known.now at to result }
{
    let kind = kind_at(b, s, at);
    if kind == GONE {
        return to;
    }
    let argument = argument_told(b, s, at, known);
    set_row(b, s, to, kind, argument);
    to + 1
}

// Packs the rows behind the quantifiers, without the dead segments, and returns the row behind the last one packed.
pub fn pack(b: &mut [u8], s: Layout, known: &[u32]) -> usize
    requires { InPlace s b.old known.now × ToldRegion (rows_in s b.old) known.now s.variables (total s) }
    ensures { (result ≤ total s) × Packs (rows_in s b.old) (rows_in s b.new) known.now s.variables (total s) result }
{
    let mut at = s.variables;
    let mut to = s.variables;
    while at < s.variables + s.nodes {
        let step = stride_at(b, s, at);
        to = put_live(b, s, at, to, known);
        at += step;
    }
    to
}
