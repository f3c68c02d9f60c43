// Trees compared by their rows in preorder, from left to right, with no tree at hand.
ghost use Rattle.std.specs.Prelude.{◌≡◌, ◌<◌};
ghost use Rattle.rows.specs.Formulas.{Readable};
ghost use Rattle.tree_order.specs.Rows.{ordering, class, compare_row, compare_rows};
ghost use Rattle.tree_order.specs.Tables.{row_in, picked_rows, Numbers};

use rows::read::{argument_at, kind_at};
use rows::{Layout, NEGATIVE};
use std::cmp::Ordering;

// The class of a kind: literals before AND before OR; both kinds of literals are one class.
fn class_of(kind: u8) -> u8
    ensures { result ≡ class kind }
{
    if kind <= NEGATIVE { 0 } else { kind }
}

// Compares two node rows, of one sheet or of two: by class, by argument, positive first.
pub fn compare_row(
    first: &[u8],
    s: Layout,
    i: usize,
    second: &[u8],
    t: Layout,
    j: usize,
) -> Ordering
    requires { Readable s first.now × (i < s.nodes) × Readable t second.now × (j < t.nodes) }
    ensures { ordering result ≡ compare_row (row_in s first.now i) (row_in t second.now j) }
{
    let k = kind_at(first, s, s.variables + i);
    let l = kind_at(second, t, t.variables + j);
    let m = argument_at(first, s, s.variables + i);
    let n = argument_at(second, t, t.variables + j);
    class_of(k)
        .cmp(&class_of(l))
        .then(m.cmp(&n))
        .then(k.cmp(&l))
}

// Compares the rows that two tables pick, pair by pair until one table ends.
pub fn compare_rows(
    first: &[u8],
    s: Layout,
    at: &[u16],
    second: &[u8],
    t: Layout,
    to: &[u16],
) -> Ordering
    requires { Readable s first.now × Numbers s at.now × Readable t second.now × Numbers t to.now }
    ensures { ordering result ≡ compare_rows (picked_rows s first.now at.now) (picked_rows t second.now to.now) }
{
    for j in 0..at.len().min(to.len()) {
        let o = compare_row(first, s, usize::from(at[j]), second, t, usize::from(to[j]));
        if o.is_ne() {
            return o;
        }
    }
    Ordering::Equal
}
