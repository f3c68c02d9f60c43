// The new numbers of the copies: the smallest ones that the prefix doesn't have, in the order of its rows.
ghost use Rattle.std.specs.Prelude.{◌≡◌, true, suc, ◌-◌, ◌*◌, ◌≤◌, ◌<◌, length, replicate};
ghost use Rattle.formula.specs.Solve.{those};
ghost use Rattle.formula.specs.Outer.{unused};
ghost use Rattle.rows.specs.Formulas.{prefix_in, Readable};
ghost use Rattle.rows.specs.Tables.{HIGHEST, NUMBERS};
ghost use Rattle.sets.specs.Sets.{holds};
ghost use Rattle.polarity.specs.Value.{Numbered};
ghost use Rattle.renaming.specs.Numbers.{free, Uses, NextFree, renumbered, Renamed, copy_tables};

use prefixes::bound_at;
use rows::{Layout, NUMBERS};
use sets::{WORDS, add, holds};
use substitution::table::fill_both;

// Puts every number of the prefix into an empty set.
pub fn fill_used(b: &[u8], s: Layout, used: &mut [u64])
    requires { Readable s b.now × Numbered s b.now × (used.old ≡ replicate 17 0) }
    ensures { Uses (prefix_in s b.now) used.new }
{
    for j in 0..s.variables {
        add(used, bound_at(b, s, j));
    }
}

// The smallest number from `from` up to `highest` that is not in the set, or the one behind `highest`.
pub fn next_unused(used: &[u64], highest: usize, from: usize) -> usize
    requires { (length used.now ≡ 17) × (highest ≤ HIGHEST) × (from ≤ suc highest) }
    ensures { NextFree used.now highest from result }
{
    for n in from..=highest {
        if !holds(used, n) {
            return n;
        }
    }
    highest + 1
}

// Gives `v` the next unused number, if `v` is in the set, and returns the number from which on the next one is looked for.
fn rename(
    set: &[u64],
    used: &[u64],
    highest: usize,
    from: usize,
    v: usize,
    table: &mut [u16],
) -> usize
    requires set_len { (length set.now ≡ 17) × (length used.now ≡ 17) × (highest ≤ HIGHEST) × (from ≤ suc highest) }
    requires v_bound { (v ≤ HIGHEST) × (length table.old ≡ NUMBERS) }
    requires nonzero { holds set.now v ≡ true → 0 < length (free used.now (suc highest - from) from) }
    ensures { Renamed set.now used.now highest from v table.old table.new result }
{
    if !holds(set, v) {
        return from;
    }
    let n = next_unused(used, highest, from);
    table[v] = n as u16;
    n + 1
}

// Gives each variable of the prefix that is in the set its new number.
fn rename_all(b: &[u8], s: Layout, set: &[u64], used: &[u64], highest: usize, table: &mut [u16])
    requires readable { Readable s b.now × Numbered s b.now × (length set.now ≡ 17) × (length used.now ≡ 17) × (highest ≤ HIGHEST) × (length table.old ≡ NUMBERS) }
    requires b_in_bounds { length (those (holds set.now) (prefix_in s b.now)) ≤ length (free used.now highest 1) }
    ensures { table.new ≡ renumbered (those (holds set.now) (prefix_in s b.now)) (free used.now highest 1) table.old }
{
    let mut from: usize = 1;
    for j in 0..s.variables {
        from = rename(set, used, highest, from, bound_at(b, s, j), table);
    }
}

// Makes the tables of the copies, one behind the other: x = 0 put in and all else kept; x = 1 put in and each member of the set renamed.
pub fn fill_tables(b: &[u8], s: Layout, set: &[u64], highest: usize, x: usize, tables: &mut [u16])
    requires readable { Readable s b.now × Numbered s b.now × (length set.now ≡ 17) × (highest ≤ HIGHEST) × (x ≤ HIGHEST) × (length tables.old ≡ 2 * NUMBERS) }
    requires b_in_bounds { length (those (holds set.now) (prefix_in s b.now)) ≤ length (unused (prefix_in s b.now) highest 1) }
    ensures { tables.new ≡ copy_tables x (those (holds set.now) (prefix_in s b.now)) (unused (prefix_in s b.now) highest 1) }
{
    let mut used = [0u64; WORDS];
    fill_used(b, s, &mut used);
    fill_both(tables, x);
    rename_all(b, s, set, &used, highest, &mut tables[NUMBERS..]);
}
