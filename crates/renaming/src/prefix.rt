// The prefix of the raw sheet: the row of x goes, and an exists row for each copy closes it, in the order of the variables copied.
ghost use Rattle.std.specs.Prelude.{◌+◌, ◌≤◌, length};
ghost use Rattle.rows.specs.Layouts.{total, Room};
ghost use Rattle.rows.specs.Formulas.{prefix_in, Readable};
ghost use Rattle.substitution.specs.Output.{Laid};
ghost use Rattle.renaming.specs.Prefixes.{row_of, rows_from};

use prefixes::bound_at;
use rows::{EXISTS, Layout, NUMBERS};
use substitution::Target;
use substitution::table::entry;
use substitution::write::write_row;

// Writes the row of the copy of `v`, if the table gives `v` a new number.
fn write_copied(out: &mut [u8], table: &[u16], v: usize, to: Target) -> usize
    requires { Room to.layout (length out.old) × (to.at + length (row_of table.now v) ≤ total to.layout) }
    ensures { Laid to.layout out.old out.new to.at result (row_of table.now v) }
{
    let n = entry(table, v);
    if n == v || NUMBERS <= n {
        return to.at;
    }
    write_row(out, to, EXISTS, n)
}

// Writes the rows of all copies.
pub fn write_all_copied(b: &[u8], s: Layout, table: &[u16], out: &mut [u8], to: Target) -> usize
    requires { Readable s b.now × Room to.layout (length out.old) × (to.at + length (rows_from table.now (prefix_in s b.now)) ≤ total to.layout) }
    ensures { Laid to.layout out.old out.new to.at result (rows_from table.now (prefix_in s b.now)) }
{
    let mut at = to.at;
    for j in 0..s.variables {
        at = write_copied(out, table, bound_at(b, s, j), Target { at, ..to });
    }
    at
}
