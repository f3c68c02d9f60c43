// The innermost block: every row with a literal after that of x is of x's kind. One pass over the prefix; the table of occurrences shows
// which rows have a literal.
ghost use Rattle.std.specs.Prelude.{◌≡◌, ◌<◌};
ghost use Rattle.formula.specs.Expand.{innermost};
ghost use Rattle.rows.specs.Formulas.{formula_in, Readable};
ghost use Rattle.polarity.specs.Value.{Numbered};
ghost use Rattle.occurrences.specs.Occurrences.{Occurring};
ghost use Rattle.elimination.specs.Steps.{Named};
ghost use Rattle.expand.specs.Inner.Block.{in_the_way};

use elimination::admission::Binding;
use occurrences::occurs;
use prefixes::{bound_at, is_existential};
use rows::Layout;

// Whether prefix row `j` has a literal and is not of the kind of row `i`.
fn is_in_the_way(b: &[u8], s: Layout, ranges: &[u16], i: usize, j: usize) -> bool
    requires { Readable s b.now × Numbered s b.now × Occurring s b.now ranges.now × (i < s.variables) × (j < s.variables) }
    ensures { result ≡ in_the_way s b.now i j }
{
    is_existential(b, s, i) != is_existential(b, s, j) && occurs(s, ranges, bound_at(b, s, j))
}

// Whether a variable of the prefix is in the innermost block.
pub fn is_innermost(b: &[u8], s: Layout, ranges: &[u16], z: Binding) -> bool
    requires { Readable s b.now × Numbered s b.now × Occurring s b.now ranges.now × Named s b.now z.variable z.row }
    ensures { result ≡ innermost z.variable (formula_in s b.now) }
{
    for j in z.row + 1..s.variables {
        if is_in_the_way(b, s, ranges, z.row, j) {
            return false;
        }
    }
    true
}
