// The sheet reduced by the values given and tried: their rows go, and their literals become constants.
ghost use Rattle.std.specs.Prelude.{◌≡◌, [], ◌∷◌, ◌++◌, ◌≤◌, ◌<◌, length};
ghost use Rattle.sheet.specs.Force.{values_of};
ghost use Rattle.rows.specs.Layouts.{Room};
ghost use Rattle.rows.specs.Formulas.{Readable, prefix_in, formula_in};
ghost use Rattle.rows.specs.Tables.{NUMBERS};
ghost use Rattle.raw.specs.Formulas.{Raw};
ghost use Rattle.force.specs.Inner.Moves.{Numbered, moves, layout_behind, behind_raw};

use prefixes::bound_at;
use rows::Layout;
use substitution::table::{keep_all, put};
use substitution::write::write_copy;
use substitution::{Span, Target};

// Makes the table that puts the values in for the variables of the first rows, and `tried` for that of the row behind them.
pub fn fill_moves(b: &[u8], s: Layout, values: &[u8], tried: bool, table: &mut [u16])
    requires { Readable s b.now × Numbered s b.now × (length values.now < s.variables) × (length table.old ≡ NUMBERS) }
    ensures { table.new ≡ moves (values_of values.now ++ (tried ∷ [])) (prefix_in s b.now) }
{
    keep_all(table);
    for (i, value) in values.iter().enumerate() {
        put(table, bound_at(b, s, i), *value == 1);
    }
    put(table, bound_at(b, s, values.len()), tried);
}

// Writes the rows from row `k` on, which is a row of the prefix or the first node row, and returns their layout. One pass writes prefix and
// matrix, since no table changes a quantifier's row.
pub fn write_behind(b: &[u8], s: Layout, table: &[u16], k: usize, out: &mut [u8]) -> Layout
    requires { Readable s b.now × (k ≤ s.variables) × Room (layout_behind s k) (length out.old) }
    ensures value { result ≡ layout_behind s k }
    ensures raw { Raw (layout_behind s k) out.old out.new (behind_raw k table.now (formula_in s b.now)) }
{
    let t = Layout {
        format: s.format,
        variables: s.variables - k,
        nodes: s.nodes,
    };
    let rest = Span {
        from: k,
        to: s.variables + s.nodes,
    };
    let front = Target { layout: t, at: 0 };
    write_copy(b, s, table, rest, out, front);
    t
}
