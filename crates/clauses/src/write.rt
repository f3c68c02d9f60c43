// The rows of the clauses, written one after the other: each function takes the row to write to and returns the row behind what it wrote.
ghost use Rattle.std.specs.Prelude.{◌≡◌, [], ◌∷◌, ◌++◌, map, ◌+◌, ◌≤◌, ◌<◌, length, get_or};
ghost use Rattle.formula.specs.Outer.{existential};
ghost use Rattle.sheet.specs.Format.{row};
ghost use Rattle.sheet.specs.Sheet.{binding_row, tree_rows};
ghost use Rattle.rows.specs.Layouts.{Fits, total, Room};
ghost use Rattle.rows.specs.Formulas.{prefix_in, Readable};
ghost use Rattle.substitution.specs.Output.{CopyReady, Laid};
ghost use Rattle.subtrees.specs.Ends.{Indexed};
ghost use Rattle.subtrees.specs.Subtrees.{top, subtree_in};
ghost use Rattle.clauses.specs.Inner.Named.{named_by};
ghost use Rattle.clauses.specs.Inner.Writing.{Named, implied_rows, below_rows, child_in, head_in, own_in, clauses_in};

use crate::survey::{first_conjunct, next_conjunct};
use rows::{AND, EXISTS, Layout, NEGATIVE, OR, POSITIVE};
use substitution::write::{write_row, write_rows};
use substitution::{Span, Target};
use subtrees::nodes::{argument_at, children_at, kind_at};

// A node row, whether it is a conjunct, and the row of the output that is written next.
#[derive(Clone, Copy)]
pub struct Place {
    pub row: usize,
    pub conjunct: bool,
    pub layout: Layout,
    pub at: usize,
}

// A child of an operator, whether it has a clause of its own, and the row of the output that is written next.
#[derive(Clone, Copy)]
pub struct Child {
    pub row: usize,
    pub operator: usize,
    pub each: bool,
    pub layout: Layout,
    pub at: usize,
}

// Writes the name of the subtree at node row `r`: a literal is its own.
fn write_name(b: &[u8], s: Layout, names: &[u16], r: usize, out: &mut [u8], to: Target) -> usize
    requires { Named s b.now names.now × CopyReady s b.now to.layout out.old × (r < s.nodes) × (to.at < total to.layout) }
    ensures { Laid to.layout out.old out.new to.at result (tree_rows (named_by (get_or names.now r 0) (subtree_in s b.now r))) }
{
    let kind = kind_at(b, s, r);
    if kind <= NEGATIVE {
        let literal = argument_at(b, s, r);
        return write_row(out, to, kind, literal);
    }
    write_row(out, to, POSITIVE, names[r] as usize)
}

// Where each child has a clause, writes the front of a child's: the operator's name implies the child's.
fn write_implied(names: &[u16], out: &mut [u8], child: Child) -> usize
    requires { (child.operator < length names.now) × Room child.layout (length out.old) × (child.at + length (implied_rows child.each 0) ≤ total child.layout) }
    ensures { Laid child.layout out.old out.new child.at result (implied_rows child.each (get_or names.now child.operator 0)) }
{
    if !child.each {
        return child.at;
    }
    let t = child.layout;
    let to = Target {
        layout: t,
        at: child.at,
    };
    let at = write_row(out, to, OR, 2);
    let below = Target { layout: t, at };
    let operator = child.operator;
    write_row(out, below, NEGATIVE, names[operator] as usize)
}

// Writes a child's name, or its clause.
fn write_child(b: &[u8], s: Layout, names: &[u16], out: &mut [u8], child: Child) -> usize
    requires named { Named s b.now names.now × CopyReady s b.now child.layout out.old × (child.row < s.nodes) × (child.operator < s.nodes) }
    requires each_bound { child.at + (length (implied_rows child.each 0) + 1) ≤ total child.layout }
    ensures { Laid child.layout out.old out.new child.at result (child_in s b.now names.now child) }
{
    let t = child.layout;
    let at = write_implied(names, out, child);
    let to = Target { layout: t, at };
    write_name(b, s, names, child.row, out, to)
}

// Writes what stands below an operator's row: the names of an OR's children, and a clause for each child else.
fn write_below(
    b: &[u8],
    s: Layout,
    ends: &[u16],
    names: &[u16],
    out: &mut [u8],
    place: Place,
) -> usize
    requires indexed { Indexed s b.now ends.now × Named s b.now names.now × CopyReady s b.now place.layout out.old × (place.row < s.nodes) }
    requires row_bound { place.at + length (below_rows names.now place.row (subtree_in s b.now place.row)) ≤ total place.layout }
    ensures { Laid place.layout out.old out.new place.at result (below_rows names.now place.row (subtree_in s b.now place.row)) }
{
    let each = kind_at(b, s, place.row) != OR;
    let mut at = place.at;
    let children = children_at(b, s, place.row);
    let mut r = place.row + 1;
    for _ in 0..children {
        let child = Child {
            row: r,
            operator: place.row,
            each,
            layout: place.layout,
            at,
        };
        at = write_child(b, s, names, out, child);
        r = usize::from(ends[r]);
    }
    at
}

// Writes the row of an OR, and in front of its children the name that implies it, if it has one.
fn write_or(b: &[u8], s: Layout, names: &[u16], out: &mut [u8], place: Place) -> usize
    requires named { Named s b.now names.now × CopyReady s b.now place.layout out.old × (place.row < s.nodes) × ((top (subtree_in s b.now place.row)).kind ≡ 6) }
    requires place_bound { place.at + length (head_in s b.now names.now place) ≤ total place.layout }
    ensures { Laid place.layout out.old out.new place.at result (head_in s b.now names.now place) }
{
    let t = place.layout;
    let r = place.row;
    let to = Target {
        layout: t,
        at: place.at,
    };
    let children = children_at(b, s, r);
    if place.conjunct {
        return write_row(out, to, OR, children);
    }
    let at = write_row(out, to, OR, children + 1);
    let below = Target { layout: t, at };
    write_row(out, below, NEGATIVE, names[r] as usize)
}

// Writes what stands in front of a row's children: the row of an OR, and the name of another conjunct.
fn write_head(b: &[u8], s: Layout, names: &[u16], out: &mut [u8], place: Place) -> usize
    requires named { Named s b.now names.now × CopyReady s b.now place.layout out.old × (place.row < s.nodes) }
    requires place_bound { place.at + length (head_in s b.now names.now place) ≤ total place.layout }
    ensures { Laid place.layout out.old out.new place.at result (head_in s b.now names.now place) }
{
    if kind_at(b, s, place.row) == OR {
        return write_or(b, s, names, out, place);
    }
    if !place.conjunct {
        return place.at;
    }
    let t = place.layout;
    let to = Target {
        layout: t,
        at: place.at,
    };
    write_name(b, s, names, place.row, out, to)
}

// Writes the clauses for a row.
fn write_own(
    b: &[u8],
    s: Layout,
    ends: &[u16],
    names: &[u16],
    out: &mut [u8],
    place: Place,
) -> usize
    requires indexed { Indexed s b.now ends.now × Named s b.now names.now × CopyReady s b.now place.layout out.old × (place.row < s.nodes) }
    requires place_bound { place.at + length (own_in s b.now names.now place) ≤ total place.layout }
    ensures { Laid place.layout out.old out.new place.at result (own_in s b.now names.now place) }
{
    let t = place.layout;
    let at = write_head(b, s, names, out, place);
    let below = Place {
        row: place.row,
        conjunct: place.conjunct,
        layout: t,
        at,
    };
    write_below(b, s, ends, names, out, below)
}

// Writes the clauses for all rows.
pub fn write_clauses(
    b: &[u8],
    s: Layout,
    ends: &[u16],
    names: &[u16],
    out: &mut [u8],
    to: Target,
) -> usize
    requires indexed { Indexed s b.now ends.now × Named s b.now names.now × CopyReady s b.now to.layout out.old }
    requires names_bound { to.at + length (clauses_in s b.now names.now) ≤ total to.layout }
    ensures { Laid to.layout out.old out.new to.at result (clauses_in s b.now names.now) }
{
    let mut at = to.at;
    let first = first_conjunct(b, s);
    let mut next = first;
    for j in first..s.nodes {
        let conjunct = j == next;
        let here = Place {
            row: j,
            conjunct,
            layout: to.layout,
            at,
        };
        at = write_own(b, s, ends, names, out, here);
        next = next_conjunct(ends, j, conjunct, next);
    }
    at
}

// Writes an exists row for each name.
fn write_bound(fresh: &[u16], out: &mut [u8], to: Target) -> usize
    requires { Room to.layout (length out.old) × (to.at + length fresh.now ≤ total to.layout) }
    ensures { Laid to.layout out.old out.new to.at result (map (row 1) fresh.now) }
{
    let mut at = to.at;
    for name in fresh {
        let here = Target {
            layout: to.layout,
            at,
        };
        at = write_row(out, here, EXISTS, usize::from(*name));
    }
    at
}

// Writes what stands in front of the clauses: the prefix, the names' rows, and the root of so many clauses.
pub fn write_front(
    b: &[u8],
    s: Layout,
    fresh: &[u16],
    clauses: usize,
    out: &mut [u8],
    t: Layout,
) -> usize
    requires { Readable s b.now × CopyReady s b.now t out.old × (s.variables + length fresh.now + 1 ≤ total t) × Fits t clauses }
    ensures { Laid t out.old out.new 0 result (map binding_row (prefix_in s b.now ++ map existential fresh.now) ++ (row 5 clauses ∷ [])) }
{
    let prefix = Span {
        from: 0,
        to: s.variables,
    };
    let front = Target { layout: t, at: 0 };
    let bound = write_rows(b, s, prefix, out, front);
    let back = Target {
        layout: t,
        at: bound,
    };
    let at = write_bound(fresh, out, back);
    let root = Target { layout: t, at };
    write_row(out, root, AND, clauses)
}
