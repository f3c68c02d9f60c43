// The names: the smallest numbers that the prefix doesn't have, given to the rows by a table.
ghost use Rattle.std.specs.Prelude.{◌≡◌, ◌++◌, map, ◌≤◌, length, get_or, take, drop};
ghost use Rattle.formula.specs.Outer.{unused};
ghost use Rattle.rows.specs.Formulas.{prefix_in, Readable};
ghost use Rattle.rows.specs.Tables.{HIGHEST};
ghost use Rattle.polarity.specs.Value.{Numbered};
ghost use Rattle.renaming.specs.Numbers.{free};

use renaming::numbers::{fill_used, next_unused};
use rows::Layout;
use sets::WORDS;

// Writes the smallest `count` numbers that are not in the set to the front of `fresh`.
fn fill_unused(used: &[u64], highest: usize, count: usize, fresh: &mut [u16])
    requires { (length used.now ≡ 17) × (highest ≤ HIGHEST) × (count ≤ length (free used.now highest 1)) × (count ≤ length fresh.old) }
    ensures { fresh.new ≡ take count (free used.now highest 1) ++ drop count fresh.old }
{
    let mut from = 1;
    for i in 0..count {
        let n = next_unused(used, highest, from);
        fresh[i] = n as u16;
        from = n + 1;
    }
}

// Writes the smallest `count` numbers up to `highest` that the prefix doesn't have to the front of `fresh`.
pub fn fill_fresh(b: &[u8], s: Layout, highest: usize, count: usize, fresh: &mut [u16])
    requires { Readable s b.now × Numbered s b.now × (highest ≤ HIGHEST) × (count ≤ length (unused (prefix_in s b.now) highest 1)) × (count ≤ length fresh.old) }
    ensures { fresh.new ≡ take count (unused (prefix_in s b.now) highest 1) ++ drop count fresh.old }
{
    let mut used = [0u64; WORDS];
    fill_used(b, s, &mut used);
    fill_unused(&used, highest, count, fresh);
}

// The `i`-th of these numbers, 0 if there are fewer.
fn fresh_at(fresh: &[u16], i: usize) -> u16
    ensures { result ≡ get_or fresh.now i 0 }
{
    if i < fresh.len() {
        return fresh[i];
    }
    0
}

// Puts the name itself in place of its number in each row's entry.
pub fn name_rows(fresh: &[u16], names: &mut [u16])
    ensures { names.new ≡ map (λ i. get_or fresh.now i 0) names.old }
{
    for j in 0..names.len() {
        names[j] = fresh_at(fresh, usize::from(names[j]));
    }
}
