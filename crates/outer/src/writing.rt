// The raw sheet written: the prefix without the row of x, the rows of the copies, and the matrix with the copied subtree.
ghost use Rattle.substitution.specs.Output.{Laid};
ghost use Rattle.outer.specs.Inner.Writing.{Writes, written_rows};

use raw::expand::{Expansion, write_matrix};
use raw::settle::write_prefix;
use renaming::prefix::write_all_copied;
use rows::{Layout, NUMBERS};
use substitution::Target;

// Writes all rows of the raw sheet.
pub fn write_outer(
    b: &[u8],
    s: Layout,
    tables: &[u16],
    cuts: &[u16],
    e: Expansion,
    out: &mut [u8],
) -> usize
    requires { Writes s b.now tables.now cuts.now e out.old }
    ensures { Laid e.layout out.old out.new 0 result (written_rows s b.now tables.now e) }
{
    let t = e.layout;
    let front = write_prefix(b, s, e.row, out, t);
    let to = Target {
        layout: t,
        at: front,
    };
    write_all_copied(b, s, &tables[NUMBERS..], out, to);
    write_matrix(b, s, tables, cuts, e, out)
}
