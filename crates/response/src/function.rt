// The function of a variable: written raw to an output, behind the prefix without the variable's row, and tidied there.
ghost use Rattle.std.specs.Prelude.{◌≡◌, true, false, ◌-◌, ◌≤◌, length};
ghost use Rattle.sheet.specs.Sheet.{sheet};
ghost use Rattle.sheet.specs.Operations.{padded};
ghost use Rattle.sheet.specs.Strategy.{response};
ghost use Rattle.rows.specs.Layouts.{format_in};
ghost use Rattle.rows.specs.Formulas.{formula_in, layout_for};
ghost use Rattle.substitution.specs.Output.{Laid};
ghost use Rattle.response.specs.Inner.Function.{constant_kind, selected_rows, SelectionReady, SelectionCuts, ByConstant, ByCopy};

use elimination::settling::Put;
use elimination::survey::Survey;
use raw::runs::{Head, write_below};
use raw::settle::write_prefix;
use rows::{AND, Layout, NUMBERS, OR};
use substitution::table::fill;
use substitution::write::{write_copy, write_row};
use substitution::{Span, Target};
use subtrees::nodes::kind_at;
use subtrees::relevant::Relevant;
use tidying::tidy_in_place;

// What is copied: the relevant subtree, the node row behind its operator's subtree, and the layout that it is written in.
#[derive(Clone, Copy)]
pub struct Selection {
    pub relevant: Relevant,
    pub end: usize,
    pub layout: Layout,
}

// For a single literal, or where every child is relevant: writes the subtree, changed by the table.
fn write_whole(b: &[u8], s: Layout, table: &[u16], p: Selection, out: &mut [u8]) -> usize
    requires { SelectionReady s b.now table.now p out.old × (p.relevant.all ≡ true) }
    ensures { Laid p.layout out.old out.new p.layout.variables result (selected_rows s b.now table.now) }
{
    let subtree = Span {
        from: s.variables + p.relevant.operator,
        to: s.variables + p.end,
    };
    let start = Target {
        layout: p.layout,
        at: p.layout.variables,
    };
    write_copy(b, s, table, subtree, out, start)
}

// Where not every child is relevant: writes the operator, and below it the relevant children, changed by the table.
fn write_some(
    b: &[u8],
    s: Layout,
    table: &[u16],
    cuts: &[u16],
    p: Selection,
    out: &mut [u8],
) -> usize
    requires { SelectionReady s b.now table.now p out.old × (p.relevant.all ≡ false) × SelectionCuts s b.now table.now p cuts.now }
    ensures { Laid p.layout out.old out.new p.layout.variables result (selected_rows s b.now table.now) }
{
    let head = Head {
        kind: kind_at(b, s, p.relevant.operator),
        children: p.relevant.children,
        layout: p.layout,
        at: p.layout.variables,
    };
    write_below(b, s, table, &cuts[1..], out, head)
}

// Writes the relevant subtree of the literals that the table changes, changed by it, as the node rows of a layout.
fn write_selection(
    b: &[u8],
    s: Layout,
    table: &[u16],
    cuts: &[u16],
    p: Selection,
    out: &mut [u8],
) -> usize
    requires { SelectionReady s b.now table.now p out.old × (p.relevant.all ≡ false → SelectionCuts s b.now table.now p cuts.now) }
    ensures { Laid p.layout out.old out.new p.layout.variables result (selected_rows s b.now table.now) }
{
    if p.relevant.all {
        return write_whole(b, s, table, p, out);
    }
    write_some(b, s, table, cuts, p, out)
}

// Writes the function of a variable that may not be settled to the front of `out`, with zeros behind it, and returns its sheet's layout.
// What joins the copies of an expansion, OR for exists, says which value a positive literal has in the function.
pub fn function_into(
    b: &[u8],
    s: Layout,
    x: usize,
    cuts: &[u16],
    w: Survey,
    out: &mut [u8],
) -> Layout
    requires { ByCopy s b.now x cuts.now w (length out.old) }
    ensures out_after { out.new ≡ padded (length out.old) (sheet (format_in s) (response x (formula_in s b.now))) }
    ensures value { result ≡ layout_for s.format (response x (formula_in s b.now)) }
    ensures variables_value { (result.variables ≡ s.variables - 1) × (result.nodes ≤ w.to.relevant.rows) }
{
    let mut table = [0u16; NUMBERS];
    fill(&mut table, x, w.to.joint == OR);
    let t = Layout {
        format: s.format,
        variables: s.variables - 1,
        nodes: w.to.relevant.rows,
    };
    let p = Selection {
        relevant: w.to.relevant,
        end: w.to.end,
        layout: t,
    };
    write_prefix(b, s, w.to.row, out, t);
    write_selection(b, s, &table, &cuts[..w.cuts], p, out);
    tidy_in_place(out, t)
}

// The kind of a constant's row: AND of nothing is true, OR of nothing false.
fn constant_kind(value: bool) -> u8
    ensures { result ≡ constant_kind value }
{
    if value { AND } else { OR }
}

// Writes the function of a variable that may be settled, a constant, in the same way.
pub fn constant_into(b: &[u8], s: Layout, p: Put, out: &mut [u8]) -> Layout
    requires { ByConstant s b.now p (length out.old) }
    ensures out_after { out.new ≡ padded (length out.old) (sheet (format_in s) (response p.variable (formula_in s b.now))) }
    ensures value { result ≡ layout_for s.format (response p.variable (formula_in s b.now)) }
    ensures variables_value { (result.variables ≡ s.variables - 1) × (result.nodes ≤ 1) }
{
    let t = Layout {
        format: s.format,
        variables: s.variables - 1,
        nodes: 1,
    };
    let at = write_prefix(b, s, p.row, out, t);
    let last = Target { layout: t, at };
    write_row(out, last, constant_kind(p.value), 0);
    tidy_in_place(out, t)
}
