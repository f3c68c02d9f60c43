// The verdict of a decided sheet ("Tidy sheets": decided when its root is an empty operator).
ghost use Rattle.std.specs.Prelude.{◌≡◌};
ghost use Rattle.formula.specs.Tidy.{verdict};
ghost use Rattle.rows.specs.Formulas.{Readable, matrix_in};
ghost use Rattle.solve.specs.Answers.{decision_of};

use crate::Verdict;
use rows::{AND, Layout, NEGATIVE};
use subtrees::nodes::{argument_at, kind_at};

// The verdict, true for AND of nothing and false for OR of nothing, or that there is none yet.
pub fn decide(b: &[u8], s: Layout) -> Option<Verdict>
    requires { Readable s b.now }
    ensures { decision_of result ≡ verdict (matrix_in s b.now) }
{
    let kind = kind_at(b, s, 0);
    if kind <= NEGATIVE {
        return None;
    }
    if argument_at(b, s, 0) != 0 {
        return None;
    }
    if kind == AND {
        return Some(Verdict::True);
    }
    Some(Verdict::False)
}
