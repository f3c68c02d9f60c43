// The relevant subtree for the literals of a chain. A child holds every literal exactly if its rows span from the first one to the last
// one, so one descent finds the deepest operator above them all; then one walk over its children, along the chain, finds the relevant ones.
ghost use Rattle.std.specs.Prelude.{◌≡◌, ◌≤◌, ◌<◌, ltb};
ghost use Rattle.rows.specs.Tables.{ROWS};
ghost use Rattle.subtrees.specs.Ends.{Indexed, Hops};
ghost use Rattle.subtrees.specs.Subtrees.{subtree_in};
ghost use Rattle.relevance.specs.Walks.{span_by, narrower, Bounded, IsAncestor, Way, Leads, with_child};
ghost use Rattle.relevance.specs.Walks.{Chained, Sited, IsShare, IsRelevantAt, IsRelevant};

use crate::{Range, Site};
use rows::Layout;
use subtrees::nodes::children_at;
use subtrees::relevant::Relevant;

// The node rows of a subtree: its own row, and the row behind it.
#[derive(Clone, Copy, PartialEq, Eq, Debug)]
struct Span {
    from: usize,
    to: usize,
}

// The relevant ones among subtrees side by side: the rows that they have, and how many they are.
#[derive(Clone, Copy, PartialEq, Eq, Debug)]
struct Share {
    rows: usize,
    children: usize,
}

// The one of `count` subtrees side by side from row `from` on that node row `row` lies in.
fn child_with(ends: &[u16], from: usize, count: usize, row: usize) -> Span
    requires { Hops ends.now from count }
    ensures { result ≡ span_by ends.now row from count }
{
    let mut at = from;
    for _ in 0..count {
        let end = ends[at] as usize;
        if row < end {
            return Span { from: at, to: end };
        }
        at = end;
    }
    Span { from: at, to: at }
}

// The child of the subtree at row `at` that has all rows of the range, or `at` if none has.
fn narrower(b: &[u8], s: Layout, ends: &[u16], range: Range, at: usize) -> usize
    requires { Indexed s b.now ends.now × (at < s.nodes) }
    ensures { result ≡ narrower range at (subtree_in s b.now at) }
{
    if at == range.first {
        return at;
    }
    let count = children_at(b, s, at);
    let child = child_with(ends, at + 1, count, range.first);
    if range.last < child.to {
        return child.from;
    }
    at
}

// The node row of the deepest operator above all literals, or of the one literal: each step down is to a child that has all of them.
fn ancestor(b: &[u8], s: Layout, ends: &[u16], range: Range) -> usize
    requires { Bounded s b.now ends.now range }
    ensures { IsAncestor s b.now range result }
{
    let mut at = 0;
    let mut next = narrower(b, s, ends, range, at);
    while at < next {
        at = next;
        next = narrower(b, s, ends, range, at);
    }
    at
}

// The first row of a chain that is not before row `end`, from row `from` of the chain on.
pub fn first_behind(next: &[u16], from: usize, end: usize) -> usize
    requires { Leads next.now end from }
    ensures { Way next.now end from result }
{
    let mut row = from;
    while row < end {
        row = next[row] as usize;
    }
    row
}

// The share with the subtree from row `at` up to `end` added, if `row`, the first literal from there on, is before `end`.
fn with_child(share: Share, at: usize, end: usize, row: usize) -> Share
    requires { (at ≤ end) × (end ≤ ROWS) × (share.rows ≤ at) × (share.children ≤ at) }
    ensures { result ≡ with_child (ltb row end) share at end }
{
    if row < end {
        return Share {
            rows: share.rows + (end - at),
            children: share.children + 1,
        };
    }
    share
}

// The children of an operator that hold a literal of the chain.
fn relevant_children(b: &[u8], s: Layout, ends: &[u16], next: &[u16], site: Site) -> Share
    requires { Sited s b.now ends.now next.now site }
    ensures { IsShare s b.now next.now site result }
{
    let mut at = site.operator + 1;
    let mut row = site.first;
    let mut share = Share {
        rows: 0,
        children: 0,
    };
    for _ in 0..children_at(b, s, site.operator) {
        let end = ends[at] as usize;
        share = with_child(share, at, end, row);
        row = first_behind(next, row, end);
        at = end;
    }
    share
}

// What is relevant of an operator. Every child is exactly if the relevant ones have all of its rows.
fn relevant_at(b: &[u8], s: Layout, ends: &[u16], next: &[u16], site: Site) -> Relevant
    requires { Sited s b.now ends.now next.now site }
    ensures { IsRelevantAt s b.now next.now site result }
{
    let share = relevant_children(b, s, ends, next, site);
    let at = site.operator;
    let rows = 1 + share.rows;
    let end = ends[at] as usize;
    Relevant {
        operator: at,
        all: at + rows == end,
        rows,
        children: share.children,
    }
}

// The relevant subtree of the matrix for the literals of a chain.
pub fn relevant_subtree(b: &[u8], s: Layout, ends: &[u16], next: &[u16], range: Range) -> Relevant
    requires { Chained s b.now ends.now next.now range.first range.last }
    ensures { IsRelevant s b.now next.now range result }
{
    let at = ancestor(b, s, ends, range);
    if at == range.first {
        return Relevant {
            operator: at,
            all: true,
            rows: 1,
            children: 0,
        };
    }
    let site = Site {
        operator: at,
        first: range.first,
    };
    relevant_at(b, s, ends, next, site)
}
