// The raw sheet of Expand: the relevant subtree is replaced by two copies, in which each literal becomes what that copy's table says. Rows
// outside the copies stay as they are. The other children are written by the second table, which changes none of their literals.
ghost use Rattle.std.specs.Prelude.{◌≡◌, true, false};
ghost use Rattle.formula.specs.Tree.{has};
ghost use Rattle.rows.specs.Formulas.{matrix_in, formula_in};
ghost use Rattle.substitution.specs.Output.{Laid};
ghost use Rattle.raw.specs.Formulas.{chosen_by, copying_by, expanded_raw, Raw};
ghost use Rattle.raw.specs.Expansions.{Copyable, Expandable, Located, Found, Told, cuts_in, new_rows, new_at, joined_in, joined_at, raw_matrix};

use crate::runs::{Head, write_below, write_runs};
use crate::settle::write_prefix;
use rows::{Layout, NUMBERS};
use substitution::write::{write_copy, write_row, write_rows};
use substitution::{Span, Target};
use subtrees::nodes::{children_at, kind_at};
use subtrees::relevant::Relevant;

// An expansion: whether a chosen literal occurs, the relevant subtree, the node row at which its subtree ends, the prefix row that goes,
// the kind of the operator that joins the copies, and the raw sheet's layout.
#[derive(Clone, Copy)]
pub struct Expansion {
    pub occurs: bool,
    pub relevant: Relevant,
    pub end: usize,
    pub row: usize,
    pub joint: u8,
    pub layout: Layout,
}

// For a single literal, or where every child is relevant: writes the joint and below it the subtree twice, by the first table and by the
// second.
fn write_whole(b: &[u8], s: Layout, tables: &[u16], e: Expansion, out: &mut [u8]) -> usize
    requires { Copyable s b.now tables.now e out.old × Located s b.now tables.now e × (e.relevant.all ≡ true) }
    ensures { Laid e.layout out.old out.new (new_at e) result (new_rows s b.now tables.now e) }
{
    let t = e.layout;
    let v = s.variables;
    let operator = e.relevant.operator;
    let subtree = Span {
        from: v + operator,
        to: v + e.end,
    };
    let start = Target {
        layout: t,
        at: t.variables + operator,
    };
    let at = write_row(out, start, e.joint, 2);
    let first = Target { layout: t, at };
    let end = write_copy(b, s, &tables[..NUMBERS], subtree, out, first);
    let second = Target { layout: t, at: end };
    write_copy(b, s, &tables[NUMBERS..], subtree, out, second)
}

// Where not every child is relevant: writes the joint and below it the operator over the relevant children twice, by the first table and by
// the second.
fn write_copies(
    b: &[u8],
    s: Layout,
    tables: &[u16],
    cuts: &[u16],
    e: Expansion,
    out: &mut [u8],
) -> usize
    requires { Copyable s b.now tables.now e out.old × Located s b.now tables.now e × (e.relevant.all ≡ false) × (cuts.now ≡ cuts_in s b.now tables.now e) }
    ensures { Laid e.layout out.old out.new (joined_at e cuts.now) result (joined_in s b.now tables.now cuts.now e) }
{
    let t = e.layout;
    let children = e.relevant.children;
    let kind = kind_at(b, s, e.relevant.operator);
    let start = Target {
        layout: t,
        at: t.variables + cuts[1] as usize,
    };
    let at = write_row(out, start, e.joint, 2);
    let first = Head {
        kind,
        children,
        layout: t,
        at,
    };
    let end = write_below(b, s, &tables[..NUMBERS], &cuts[1..], out, first);
    let second = Head {
        kind,
        children,
        layout: t,
        at: end,
    };
    write_below(b, s, &tables[NUMBERS..], &cuts[1..], out, second)
}

// Where not every child is relevant: writes the operator, its children before the first relevant one, the copies in place of that one, and
// the other children.
fn write_some(
    b: &[u8],
    s: Layout,
    tables: &[u16],
    cuts: &[u16],
    e: Expansion,
    out: &mut [u8],
) -> usize
    requires { Copyable s b.now tables.now e out.old × Located s b.now tables.now e × (e.relevant.all ≡ false) × (cuts.now ≡ cuts_in s b.now tables.now e) }
    ensures { Laid e.layout out.old out.new (new_at e) result (new_rows s b.now tables.now e) }
{
    let t = e.layout;
    let operator = e.relevant.operator;
    let kind = kind_at(b, s, operator);
    let children = children_at(b, s, operator);
    let before = Span {
        from: s.variables + cuts[0] as usize,
        to: s.variables + cuts[1] as usize,
    };
    let start = Target {
        layout: t,
        at: t.variables + operator,
    };
    let at = write_row(out, start, kind, children - e.relevant.children + 1);
    let below = Target { layout: t, at };
    write_rows(b, s, before, out, below);
    let end = write_copies(b, s, tables, cuts, e, out);
    let rest = Target { layout: t, at: end };
    write_runs(b, s, &tables[NUMBERS..], &cuts[2..], out, rest)
}

// Writes what replaces the subtree.
fn write_subtree(
    b: &[u8],
    s: Layout,
    tables: &[u16],
    cuts: &[u16],
    e: Expansion,
    out: &mut [u8],
) -> usize
    requires { Copyable s b.now tables.now e out.old × Found s b.now tables.now cuts.now e }
    ensures { Laid e.layout out.old out.new (new_at e) result (new_rows s b.now tables.now e) }
{
    if e.relevant.all {
        return write_whole(b, s, tables, e, out);
    }
    write_some(b, s, tables, cuts, e, out)
}

// Where a chosen literal occurs: writes the matrix with the relevant subtree expanded, behind the prefix.
fn write_expanded(
    b: &[u8],
    s: Layout,
    tables: &[u16],
    cuts: &[u16],
    e: Expansion,
    out: &mut [u8],
) -> usize
    requires { Copyable s b.now tables.now e out.old × Found s b.now tables.now cuts.now e }
    ensures { Laid e.layout out.old out.new e.layout.variables result (raw_matrix s b.now tables.now e) }
{
    let t = e.layout;
    let above = Span {
        from: s.variables,
        to: s.variables + e.relevant.operator,
    };
    let behind = Span {
        from: s.variables + e.end,
        to: s.variables + s.nodes,
    };
    let front = Target {
        layout: t,
        at: t.variables,
    };
    write_rows(b, s, above, out, front);
    let end = write_subtree(b, s, tables, cuts, e, out);
    let back = Target { layout: t, at: end };
    write_rows(b, s, behind, out, back)
}

// Writes the matrix of the raw sheet behind the prefix, of as many rows as the layout says; if no chosen literal occurs, it is the old one.
pub fn write_matrix(
    b: &[u8],
    s: Layout,
    tables: &[u16],
    cuts: &[u16],
    e: Expansion,
    out: &mut [u8],
) -> usize
    requires { Copyable s b.now tables.now e out.old × Told s b.now tables.now cuts.now e }
    ensures { Laid e.layout out.old out.new e.layout.variables result (raw_matrix s b.now tables.now e) }
{
    if e.occurs {
        return write_expanded(b, s, tables, cuts, e, out);
    }
    let t = e.layout;
    let matrix = Span {
        from: s.variables,
        to: s.variables + s.nodes,
    };
    let front = Target {
        layout: t,
        at: t.variables,
    };
    write_rows(b, s, matrix, out, front)
}

// Writes the raw sheet of an expansion: the prefix without the row that goes, and the matrix.
pub fn write_raw(b: &[u8], s: Layout, tables: &[u16], cuts: &[u16], e: Expansion, out: &mut [u8])
    requires { Expandable s b.now tables.now e out.old × (e.occurs ≡ has (chosen_by tables.now) (matrix_in s b.now)) × (e.occurs ≡ true → Found s b.now tables.now cuts.now e) }
    ensures { Raw e.layout out.old out.new (expanded_raw e.row (copying_by tables.now e.joint) (formula_in s b.now)) }
{
    let t = e.layout;
    write_prefix(b, s, e.row, out, t);
    write_matrix(b, s, tables, cuts, e, out);
}
