// The rows of a sheet's tree, sorted: a table of row numbers is filled from the last row to the first.
ghost use Rattle.std.specs.Prelude.{◌≡◌, ◌≤◌, length};
ghost use Rattle.sheet.specs.Sheet.{tree_rows};
ghost use Rattle.rows.specs.Formulas.{matrix_in, Readable};
ghost use Rattle.subtrees.specs.Ends.{Indexed};
ghost use Rattle.formula.specs.Order.{sort};
ghost use Rattle.tree_order.specs.Tables.{picked, picked_rows, tree_entries, Numbers};

use crate::merging::arrange;
use rows::{Layout, ROWS};
use subtrees::ends::fill_ends;
use subtrees::nodes::children_at;

// Fills `at`, as long as there are node rows, with the row numbers of the sorted tree's rows in preorder.
pub fn fill_sorted(b: &[u8], s: Layout, ends: &[u16], at: &mut [u16], spare: &mut [u16])
    requires { Indexed s b.now ends.now × (length at.old ≡ s.nodes) × (s.nodes ≤ length spare.old) }
    ensures { picked s b.now ends.now at.new ≡ tree_entries (sort (matrix_in s b.now)) }
{
    for r in (0..s.nodes).rev() {
        at[r] = r as u16;
        let children = children_at(b, s, r);
        arrange(b, s, ends, &mut at[r + 1..], spare, children);
    }
}

// Fills `at` with the row numbers of the sorted tree's rows, by tables of its own.
pub fn sort_rows(b: &[u8], s: Layout, at: &mut [u16])
    requires { Readable s b.now × (length at.old ≡ s.nodes) }
    ensures at_after { picked_rows s b.now at.new ≡ tree_rows (sort (matrix_in s b.now)) }
    ensures numbers { Numbers s at.new }
{
    let mut ends = [0u16; ROWS];
    let mut spare = [0u16; ROWS];
    fill_ends(b, s, &mut ends);
    fill_sorted(b, s, &ends, at, &mut spare);
}
