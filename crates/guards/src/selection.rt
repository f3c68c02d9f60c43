// Some of the root's children: the sheet's prefix and the root's row over them, written as rows that aren't tidied.
ghost use Rattle.std.specs.Prelude.{◌≡◌, length};
ghost use Rattle.formula.specs.Guards.{conjoined};
ghost use Rattle.sheet.specs.Sheet.{formula_rows};
ghost use Rattle.rows.specs.Layouts.{rows_in, Room};
ghost use Rattle.rows.specs.Formulas.{prefix_in};
ghost use Rattle.substitution.specs.Output.{Laid};
ghost use Rattle.guards.specs.Inner.Selections.{children_rows, guards_in, selection_layout, Copyable, Chosen};

use rows::{AND, Layout};
use substitution::write::{write_row, write_rows};
use substitution::{Span, Target};

// How many children are selected, how many rows they have, and the row from which on every child is selected.
#[derive(Clone, Copy)]
pub struct Selection {
    pub guards: usize,
    pub rows: usize,
    pub rest: usize,
}

// Writes the children that begin at the rows `kept`, each up to the end of its subtree.
fn write_kept(b: &[u8], s: Layout, ends: &[u16], kept: &[u16], out: &mut [u8], to: Target) -> usize
    requires { Copyable s b.now ends.now kept.now to.layout out.old to.at }
    ensures { Laid to.layout out.old out.new to.at result (children_rows s b.now ends.now kept.now) }
{
    let v = s.variables;
    let mut at = to.at;
    for start in kept {
        let row = usize::from(*start);
        let child = Span {
            from: v + row,
            to: v + usize::from(ends[row]),
        };
        let here = Target {
            layout: to.layout,
            at,
        };
        at = write_rows(b, s, child, out, here);
    }
    at
}

// Writes AND of the children that begin at the rows `kept` and of all from row `rest` on, under the sheet's prefix, and returns the
// layout of these rows.
pub fn write_selection(
    b: &[u8],
    s: Layout,
    ends: &[u16],
    kept: &[u16],
    p: Selection,
    out: &mut [u8],
) -> Layout
    requires { Chosen s b.now ends.now kept.now p × Room s (length out.old) }
    ensures value { result ≡ selection_layout s p }
    ensures out_after { rows_in result out.new ≡ formula_rows (conjoined (prefix_in s b.now) (guards_in s b.now ends.now kept.now p.rest)) }
{
    let f = s.format;
    let t = Layout {
        format: f,
        variables: s.variables,
        nodes: p.rows + 1,
    };
    let prefix = Span {
        from: 0,
        to: s.variables,
    };
    let front = Target { layout: t, at: 0 };
    let top = write_rows(b, s, prefix, out, front);
    let root = Target { layout: t, at: top };
    let below = write_row(out, root, AND, p.guards);
    let children = Target {
        layout: t,
        at: below,
    };
    let next = write_kept(b, s, ends, kept, out, children);
    let others = Span {
        from: s.variables + p.rest,
        to: s.variables + s.nodes,
    };
    let last = Target {
        layout: t,
        at: next,
    };
    write_rows(b, s, others, out, last);
    t
}
