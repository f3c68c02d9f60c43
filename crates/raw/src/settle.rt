// The raw sheet of Settle: "each literal becomes a constant row, the row of x goes".
ghost use Rattle.std.specs.Prelude.{◌≡◌, map, ◌+◌, ◌-◌, ◌≤◌, ◌<◌, length};
ghost use Rattle.sheet.specs.Sheet.{binding_row};
ghost use Rattle.rows.specs.Layouts.{total, Room};
ghost use Rattle.rows.specs.Formulas.{Readable, prefix_in, formula_in};
ghost use Rattle.substitution.specs.Output.{CopyReady, Laid};
ghost use Rattle.raw.specs.Formulas.{without_row, settled_raw, raw_layout, Raw};

use rows::Layout;
use substitution::write::{write_copy, write_rows};
use substitution::{Span, Target};

// Writes the prefix without row `i` as the first rows of the layout `t`.
pub fn write_prefix(b: &[u8], s: Layout, i: usize, out: &mut [u8], t: Layout) -> usize
    requires { Readable s b.now × CopyReady s b.now t out.old × (i < s.variables) × (s.variables ≤ total t + 1) }
    ensures laid { Laid t out.old out.new 0 result (map binding_row (without_row i (prefix_in s b.now))) }
    ensures value { result ≡ s.variables - 1 }
{
    let above = Span { from: 0, to: i };
    let below = Span {
        from: i + 1,
        to: s.variables,
    };
    let front = Target { layout: t, at: 0 };
    let at = write_rows(b, s, above, out, front);
    let back = Target { layout: t, at };
    write_rows(b, s, below, out, back)
}

// Writes the raw sheet of settling: the prefix without row `i`, and the matrix with its literals changed by the table.
pub fn write_settled(b: &[u8], s: Layout, table: &[u16], i: usize, out: &mut [u8])
    requires { Readable s b.now × (i < s.variables) × Room (raw_layout s s.nodes) (length out.old) }
    ensures { Raw (raw_layout s s.nodes) out.old out.new (settled_raw i table.now (formula_in s b.now)) }
{
    let t = Layout {
        variables: s.variables - 1,
        ..s
    };
    let matrix = Span {
        from: s.variables,
        to: s.variables + s.nodes,
    };
    let at = write_prefix(b, s, i, out, t);
    let back = Target { layout: t, at };
    write_copy(b, s, table, matrix, out, back);
}
