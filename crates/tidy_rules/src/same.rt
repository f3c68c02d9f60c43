// Compares segments by their live rows. While rows are tidied, an operator's argument is the number of rows that it covers, and dead
// segments lie between live rows, so equal trees may differ in their bytes. Operators are therefore compared by their numbers of children.
ghost use Rattle.std.specs.Prelude.{length};
ghost use Rattle.rows.specs.Layouts.{rows_in, Room};
ghost use Rattle.tidy_rules.specs.Segments.{Standing};
ghost use Rattle.tidy_rules.specs.Entered.{ArgumentAt, LiveAt, Same, SameRow};

use crate::walk::{count_live, extent_at, first_live};
use rows::read::{argument_at, kind_at};
use rows::{Layout, NEGATIVE};

// The argument that the row of a live segment has in a sheet: an operator's is the number of its children.
pub fn argument_of(b: &[u8], s: Layout, r: usize) -> usize
    requires { Room s (length b.now) × Standing (rows_in s b.now) r }
    ensures { ArgumentAt (rows_in s b.now) r result }
{
    let argument = argument_at(b, s, r);
    if kind_at(b, s, r) <= NEGATIVE {
        return argument;
    }
    count_live(b, s, r + 1, r + argument)
}

// Whether the rows of the live segments at `p` and `q` would be the same in a sheet.
pub fn row_same(b: &[u8], s: Layout, p: usize, q: usize) -> bool
    requires { Room s (length b.now) × Standing (rows_in s b.now) p × Standing (rows_in s b.now) q }
    ensures { SameRow (rows_in s b.now) p q result }
{
    kind_at(b, s, p) == kind_at(b, s, q) && argument_of(b, s, p) == argument_of(b, s, q)
}

// Whether the live segments at `p` and `q` are the same tree: compared row by row, without the dead segments.
pub fn same_at(b: &[u8], s: Layout, p: usize, q: usize) -> bool
    requires { Room s (length b.now) × LiveAt (rows_in s b.now) p × LiveAt (rows_in s b.now) q }
    ensures { Same (rows_in s b.now) p q result }
{
    let to = p + extent_at(b, s, p);
    let end = q + extent_at(b, s, q);
    let mut i = p;
    let mut j = q;
    while i < to {
        if end <= j || !row_same(b, s, i, j) {
            return false;
        }
        i = first_live(b, s, i + 1, to);
        j = first_live(b, s, j + 1, end);
    }
    end <= j
}
