// Marks the variables that have a literal in a relevant subtree, in one walk over the rows of the relevant children. The relevant subtree
// is that of a set of literals, which is given by a chain.
ghost use Rattle.std.specs.Prelude.{◌≡◌, ◌≤◌, ◌<◌, length};
ghost use Rattle.rows.specs.Formulas.{Readable};
ghost use Rattle.relevance.specs.Walks.{Chained, Sited};
ghost use Rattle.dependence.specs.Marks.{MarkedRow, MarkedRows, MarkedChild, MarkedChildren, MarkedRelevant};

use occurrences::literal_at;
use relevance::subtree::{first_behind, relevant_subtree};
use relevance::{Range, Site};
use rows::{Layout, NUMBERS};
use sets::add;
use subtrees::nodes::children_at;

// Marks the variable of node row `i`, if the row is a literal.
fn mark_row(b: &[u8], s: Layout, i: usize, set: &mut [u64])
    requires { Readable s b.now × (i < s.nodes) × (length set.old ≡ 17) }
    ensures { MarkedRow s b.now i set.old set.new }
{
    let v = literal_at(b, s, i);
    if v < NUMBERS {
        add(set, v);
    }
}

// Marks the variables of the node rows `from` to `to`.
fn mark_rows(b: &[u8], s: Layout, from: usize, to: usize, set: &mut [u64])
    requires { Readable s b.now × (from ≤ to) × (to ≤ s.nodes) × (length set.old ≡ 17) }
    ensures { MarkedRows s b.now from to set.old set.new }
{
    for i in from..to {
        mark_row(b, s, i, set);
    }
}

// Marks the variables of the subtree from row `at` up to `end`, if it holds a literal of the chain: if `row`, the first of these from `at`
// on, is before `end`.
fn mark_child(b: &[u8], s: Layout, at: usize, end: usize, row: usize, set: &mut [u64])
    requires { Readable s b.now × (at ≤ end) × (end ≤ s.nodes) × (length set.old ≡ 17) }
    ensures { MarkedChild s b.now at end row set.old set.new }
{
    if row < end {
        mark_rows(b, s, at, end, set);
    }
}

// Marks the variables of those children of an operator that hold a literal of the chain.
fn mark_children(b: &[u8], s: Layout, ends: &[u16], next: &[u16], site: Site, set: &mut [u64])
    requires { Sited s b.now ends.now next.now site × (length set.old ≡ 17) }
    ensures { MarkedChildren s b.now next.now site set.old set.new }
{
    let mut at = site.operator + 1;
    let mut row = site.first;
    for _ in 0..children_at(b, s, site.operator) {
        let end = usize::from(ends[at]);
        mark_child(b, s, at, end, row, set);
        row = first_behind(next, row, end);
        at = end;
    }
}

// Marks the variables of the relevant subtree of a chain's literals: the one literal, or the relevant children of the operator found.
pub fn mark_relevant(b: &[u8], s: Layout, ends: &[u16], next: &[u16], range: Range, set: &mut [u64])
    requires { Chained s b.now ends.now next.now range.first range.last × (length set.old ≡ 17) }
    ensures { MarkedRelevant s b.now next.now range set.old set.new }
{
    let operator = relevant_subtree(b, s, ends, next, range).operator;
    if operator == range.first {
        mark_row(b, s, range.first, set);
    } else {
        let site = Site {
            operator,
            first: range.first,
        };
        mark_children(b, s, ends, next, site, set);
    }
}
