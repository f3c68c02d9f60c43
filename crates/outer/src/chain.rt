// The literals that a table of changes changes, linked in one pass from the last row to the first.
ghost use Rattle.std.specs.Prelude.{◌≡◌, ◌≤◌, ◌<◌, length};
ghost use Rattle.formula.specs.Settle.{is_lit};
ghost use Rattle.rows.specs.Formulas.{Readable};
ghost use Rattle.rows.specs.Tables.{NUMBERS};
ghost use Rattle.subtrees.specs.Subtrees.{subtree_in};
ghost use Rattle.substitution.specs.Changes.{chosen};
ghost use Rattle.outer.specs.Inner.Chain.{with_row, Linked};

use occurrences::literal_at;
use relevance::Range;
use rows::Layout;
use substitution::table::entry;

// Whether node row `i` is a literal that the table changes.
fn is_chosen(b: &[u8], s: Layout, table: &[u16], i: usize) -> bool
    requires { Readable s b.now × (i < s.nodes) × (length table.now ≡ NUMBERS) }
    ensures { result ≡ is_lit (chosen table.now) (subtree_in s b.now i) }
{
    let v = literal_at(b, s, i);
    entry(table, v) != v
}

// The range with row `i` put in front, if that row is chosen; the last row of a range without rows is `none`.
fn with_row(r: Range, none: usize, i: usize, chosen: bool) -> Range
    ensures { result ≡ with_row chosen none i r }
{
    if !chosen {
        return r;
    }
    if r.last == none {
        return Range { first: i, last: i };
    }
    Range {
        first: i,
        last: r.last,
    }
}

// The rows of the first and the last literal that the table changes, N if there is none, and in `next` the way from each to the next one.
pub fn link_chosen(b: &[u8], s: Layout, table: &[u16], next: &mut [u16]) -> Range
    requires { Readable s b.now × (length table.now ≡ NUMBERS) × (s.nodes ≤ length next.old) }
    ensures { Linked (chosen table.now) s b.now next.new result }
{
    let none = s.nodes;
    let mut r = Range {
        first: none,
        last: none,
    };
    for i in (0..none).rev() {
        next[i] = r.first as u16;
        r = with_row(r, none, i, is_chosen(b, s, table, i));
    }
    r
}
