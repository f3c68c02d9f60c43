// The clause profile of a tidy tree: no operator except the root is AND. An OR then has only literals as children, since a tidy OR has no
// OR among them.
ghost use Rattle.std.specs.Prelude.{◌≡◌};
ghost use Rattle.formula.specs.Inner.Clauses.{and_below};
ghost use Rattle.rows.specs.Formulas.{matrix_in, Readable};

use rows::read::kind_at;
use rows::{AND, Layout};

// Whether a node row other than the first is AND.
pub fn has_inner_and(b: &[u8], s: Layout) -> bool
    requires { Readable s b.now }
    ensures { result ≡ and_below (matrix_in s b.now) }
{
    for r in s.variables + 1..s.variables + s.nodes {
        if kind_at(b, s, r) == AND {
            return true;
        }
    }
    false
}
