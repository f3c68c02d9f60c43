// The prefix of a sheet by the numbers of its rows: a variable's row, its quantifier, and the innermost block.
#![tactic(auto)]

ghost use Rattle.std.specs.Prelude.{◌≡◌, ◌^◌, ◌<◌, IfSome, IfNone};
ghost use Rattle.formula.specs.Tree.{same_op, exists};
ghost use Rattle.rows.specs.Formulas.{prefix_in, Readable};
ghost use Rattle.prefixes.specs.Places.{place, binding_in, block_start};

use rows::read::{argument_at, kind_at};
use rows::{EXISTS, Layout};

// The variable of prefix row `i`.
pub fn bound_at(b: &[u8], s: Layout, i: usize) -> usize
    requires { Readable s b.now × (i < s.variables) }
    ensures { (result ≡ (binding_in s b.now i).variable) × (result < 2 ^ 32) }
{
    argument_at(b, s, i)
}

// Whether the quantifier of prefix row `i` is an existential one.
pub fn is_existential(b: &[u8], s: Layout, i: usize) -> bool
    requires { Readable s b.now × (i < s.variables) }
    ensures { result ≡ same_op exists (binding_in s b.now i).quantifier }
{
    kind_at(b, s, i) == EXISTS
}

// The prefix row of the variable `x`, if it is in the prefix.
pub fn find_variable(b: &[u8], s: Layout, x: usize) -> Option<usize>
    requires { Readable s b.now }
    ensures row { IfSome result (λ i. (i ≡ place x (prefix_in s b.now)) × (i < s.variables)) }
    ensures not_in_prefix { IfNone result (place x (prefix_in s b.now) ≡ s.variables) }
{
    for i in 0..s.variables {
        if bound_at(b, s, i) == x {
            return Some(i);
        }
    }
    None
}

// The first row of the innermost block: from the last row back for as long as the kinds are equal.
pub fn block_start(b: &[u8], s: Layout) -> usize
    requires { Readable s b.now × (0 < s.variables) }
    ensures { result ≡ block_start (prefix_in s b.now) }
{
    let last = s.variables - 1;
    let exists = is_existential(b, s, last);
    for i in (0..last).rev() {
        if is_existential(b, s, i) != exists {
            return i + 1;
        }
    }
    0
}
