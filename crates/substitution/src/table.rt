// The table of changes, by variable number: what the literals of each variable become.
ghost use Rattle.std.specs.Prelude.{◌≡◌, true, false, ◌++◌, ◌*◌, ◌≤◌, ◌<◌, length, set};
ghost use Rattle.rows.specs.Tables.{HIGHEST, NUMBERS};
ghost use Rattle.substitution.specs.Changes.{entry, put_entry, numbers, putting_in, putting};

use crate::{PUT_FALSE, PUT_TRUE};
use rows::NUMBERS;

// Makes every variable stay.
pub fn keep_all(table: &mut [u16])
    requires { length table.old ≤ 65536 }
    ensures { table.new ≡ numbers (length table.old) }
{
    for i in 0..table.len() {
        table[i] = i as u16;
    }
}

// Puts a value in for `x`.
pub fn put(table: &mut [u16], x: usize, value: bool)
    requires { x < length table.old }
    ensures { table.new ≡ set table.old x (put_entry value) }
{
    table[x] = if value { PUT_TRUE } else { PUT_FALSE };
}

// Makes the table that puts a value in for `x` alone.
pub fn fill(table: &mut [u16], x: usize, value: bool)
    requires { (x < length table.old) × (length table.old ≤ 65536) }
    ensures { table.new ≡ putting_in (length table.old) x value }
{
    keep_all(table);
    put(table, x, value);
}

// Makes the tables of Expand, one behind the other: x = 0 put in by the first, x = 1 by the second.
pub fn fill_both(tables: &mut [u16], x: usize)
    requires { (length tables.old ≡ 2 * NUMBERS) × (x ≤ HIGHEST) }
    ensures { tables.new ≡ putting x false ++ putting x true }
{
    fill(&mut tables[..NUMBERS], x, false);
    fill(&mut tables[NUMBERS..], x, true);
}

// The entry of variable `v`.
pub fn entry(table: &[u16], v: usize) -> usize
    ensures { result ≡ entry table.now v }
{
    match table.get(v) {
        Some(e) => usize::from(*e),
        None => v,
    }
}
