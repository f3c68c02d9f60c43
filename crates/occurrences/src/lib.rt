// Where the literals of each variable stand: tables for all variables, filled in a few passes. Entries of `ranges`: 2x the first literal
// of x, 2x + 1 the last one.
#![tactic(auto)]

ghost use Rattle.std.specs.Prelude.{◌≡◌, ◌*◌, ◌^◌, ◌≤◌, ◌<◌, ltb, length, get_or, set};
ghost use Rattle.rows.specs.Formulas.{Readable};
ghost use Rattle.rows.specs.Tables.{HIGHEST, NUMBERS};
ghost use Rattle.subtrees.specs.Subtrees.{subtree_in};
ghost use Rattle.occurrences.specs.Occurrences.{Occurrences, variable_of, Firsts, Nexts, Lasts, FirstsKept};

use rows::{Layout, NEGATIVE, NUMBERS};
use subtrees::nodes::{argument_at, kind_at};

// The variable of the literal at node row `i`, or a number that no table has if the row is an operator.
pub fn literal_at(b: &[u8], s: Layout, i: usize) -> usize
    requires { Readable s b.now × (i < s.nodes) }
    ensures { (result ≡ variable_of (subtree_in s b.now i)) × (result < 2 ^ 32) }
{
    if kind_at(b, s, i) <= NEGATIVE {
        return argument_at(b, s, i);
    }
    NUMBERS
}

// Entry `i` of a table, or 0 if it has none.
fn look(table: &[u16], i: usize) -> u16
    ensures { result ≡ get_or table.now i 0 }
{
    if table.len() <= i {
        return 0;
    }
    table[i]
}

// Sets entry `i` of a table, if it has one.
fn store(table: &mut [u16], i: usize, value: u16)
    ensures { table.new ≡ set table.old i value }
{
    if table.len() <= i {
        return;
    }
    table[i] = value;
}

// The first literal of each variable, and from each literal the next one: one pass from the last row to the first.
fn link(b: &[u8], s: Layout, ranges: &mut [u16], next: &mut [u16])
    requires { Readable s b.now × (length ranges.old ≡ 2 * NUMBERS) × (s.nodes ≤ length next.old) }
    ensures { Firsts s b.now 0 ranges.new × Nexts s b.now 0 next.new }
{
    ranges.fill(s.nodes as u16);
    for i in (0..s.nodes).rev() {
        let x = literal_at(b, s, i);
        next[i] = look(ranges, 2 * x);
        store(ranges, 2 * x, i as u16);
    }
}

// The last literal of each variable: one pass from the first row to the last, in which a later row replaces an earlier one.
fn mark(b: &[u8], s: Layout, ranges: &mut [u16])
    requires { Readable s b.now × (length ranges.old ≡ 2 * NUMBERS) }
    ensures { Lasts s b.now s.nodes ranges.new × FirstsKept ranges.old ranges.new }
{
    for i in 0..s.nodes {
        let x = literal_at(b, s, i);
        store(ranges, 2 * x + 1, i as u16);
    }
}

// Where each variable's literals stand: `ranges` by variable number, and `next` by node row, after a literal the next row with one
// of the same variable, or N.
pub fn fill_occurrences(b: &[u8], s: Layout, ranges: &mut [u16], next: &mut [u16])
    requires { Readable s b.now × (length ranges.old ≡ 2 * NUMBERS) × (s.nodes ≤ length next.old) }
    ensures { Occurrences s b.now ranges.new next.new }
{
    link(b, s, ranges, next);
    mark(b, s, ranges);
}

// Whether the variable `x` has a literal.
pub fn occurs(s: Layout, ranges: &[u16], x: usize) -> bool
    requires { (length ranges.now ≡ 2 * NUMBERS) × (x ≤ HIGHEST) }
    ensures { result ≡ ltb (get_or ranges.now (2 * x) 0) s.nodes }
{
    (ranges[2 * x] as usize) < s.nodes
}
