// The rows with literals after that of a universal variable: whether they are universal rows and then existential ones, and the set of the
// existential ones. Each is one walk over the prefix; the table of occurrences shows which rows have a literal.
ghost use Rattle.std.specs.Prelude.{◌≡◌, ◌≤◌, ◌<◌, length, replicate};
ghost use Rattle.formula.specs.Outer.{one_block_out};
ghost use Rattle.rows.specs.Formulas.{matrix_in, formula_in, Readable};
ghost use Rattle.prefixes.specs.Places.{binding_in};
ghost use Rattle.occurrences.specs.Occurrences.{Occurring};
ghost use Rattle.dependence.specs.Blocks.{Located, Numbered, row_test, FirstFrom, WithRow, IsBlock};

use crate::Target;
use occurrences::occurs;
use prefixes::{bound_at, is_existential};
use rows::Layout;
use sets::add;

// Whether prefix row `j` has a literal and is existential, or universal, as asked.
fn is_row(b: &[u8], s: Layout, ranges: &[u16], exists: bool, j: usize) -> bool
    requires { Readable s b.now × Numbered s b.now × Occurring s b.now ranges.now × (j < s.variables) }
    ensures { result ≡ row_test exists (matrix_in s b.now) (binding_in s b.now j) }
{
    is_existential(b, s, j) == exists && occurs(s, ranges, bound_at(b, s, j))
}

// The first such row from row `from` on, if there is one.
fn find_row(b: &[u8], s: Layout, ranges: &[u16], exists: bool, from: usize) -> Option<usize>
    requires { Readable s b.now × Numbered s b.now × Occurring s b.now ranges.now × (from ≤ s.variables) }
    ensures { FirstFrom s b.now exists from result }
{
    for j in from..s.variables {
        if is_row(b, s, ranges, exists, j) {
            return Some(j);
        }
    }
    None
}

// Whether a variable of the prefix is universal, and the later rows with literals are universal ones, then at least one existential one,
// and no universal one after that.
pub fn one_block_out(b: &[u8], ranges: &[u16], t: Target) -> bool
    requires { Readable t.layout b.now × Occurring t.layout b.now ranges.now × Located t.layout b.now t }
    ensures { result ≡ one_block_out t.variable (formula_in t.layout b.now) }
{
    let s = t.layout;
    if is_existential(b, s, t.row) {
        return false;
    }
    let Some(i) = find_row(b, s, ranges, true, t.row + 1) else {
        return false;
    };
    find_row(b, s, ranges, false, i + 1).is_none()
}

// Puts the variable of prefix row `j` into the set, if the row has a literal and is existential.
fn add_row(b: &[u8], s: Layout, ranges: &[u16], j: usize, set: &mut [u64])
    requires { Readable s b.now × Numbered s b.now × Occurring s b.now ranges.now × (j < s.variables) × (length set.old ≡ 17) }
    ensures { WithRow s b.now j set.old set.new }
{
    if is_row(b, s, ranges, true, j) {
        add(set, bound_at(b, s, j));
    }
}

// Fills an empty set with the existential block: the variables of the existential rows with literals after that of the variable.
pub fn fill_block(b: &[u8], ranges: &[u16], t: Target, set: &mut [u64])
    requires { Readable t.layout b.now × Occurring t.layout b.now ranges.now × Located t.layout b.now t × (set.old ≡ replicate 17 0) }
    ensures { IsBlock t.variable (formula_in t.layout b.now) set.new }
{
    for j in t.row + 1..t.layout.variables {
        add_row(b, t.layout, ranges, j, set);
    }
}
