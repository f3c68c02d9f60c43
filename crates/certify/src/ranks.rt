// The ranks of the variables of one quantifier, by a table.
ghost use Rattle.std.specs.Prelude.{◌≡◌, cond, suc, ◌<◌, length};
ghost use Rattle.rows.specs.Formulas.{prefix_in, Readable};
ghost use Rattle.resolution.specs.Ranks.{Ranked};
ghost use Rattle.certify.specs.Inner.Ranking.{Numbered, Unranked, quantifier_for};

use prefixes::{bound_at, is_existential};
use rows::Layout;

// The rank of row `i`, or 0 if its variable is not of the quantifier.
fn rank_of(i: usize, counts: bool) -> u16
    requires { i < 1024 }
    ensures { result ≡ cond counts (suc i) 0 }
{
    if counts {
        return (i + 1) as u16;
    }
    0
}

// Fills the table of a quantifier, from the last row to the first.
pub fn fill_ranks(sheet: &[u8], s: Layout, existential: bool, ranks: &mut [u16])
    requires { Readable s sheet.now × Numbered s sheet.now × Unranked ranks.old }
    ensures { Ranked (quantifier_for existential) (prefix_in s sheet.now) ranks.new }
{
    for i in (0..s.variables).rev() {
        let x = bound_at(sheet, s, i);
        ranks[x] = rank_of(i, is_existential(sheet, s, i) == existential);
    }
}
