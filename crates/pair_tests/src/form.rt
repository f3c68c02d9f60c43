// The form of a strategy's matrix: OR of one AND for each pair, of the variable's positive literal and its function.
ghost use Rattle.std.specs.Prelude.{◌≡◌, true, suc, ◌≤◌, ◌<◌, length, take};
ghost use Rattle.formula.specs.StrategyMatrix.{read_pair, pairs_of};
ghost use Rattle.rows.specs.Formulas.{matrix_in, Readable};
ghost use Rattle.subtrees.specs.Ends.{Indexed};
ghost use Rattle.subtrees.specs.Subtrees.{subtree_in};
ghost use Rattle.pair_tests.specs.Pairs.{is_read, pairs_in, pair_cuts};

use rows::{AND, Layout, OR, POSITIVE};
use subtrees::nodes::{children_at, kind_at};

// Whether a pair stands at node row `i`.
fn is_pair(b: &[u8], s: Layout, i: usize) -> bool
    requires { Readable s b.now × (i < s.nodes) }
    ensures { result ≡ is_read (read_pair (subtree_in s b.now i)) }
{
    kind_at(b, s, i) == AND && children_at(b, s, i) == 2 && kind_at(b, s, i + 1) == POSITIVE
}

// Whether the matrix is one of pairs. If so, the first entries of `cuts` are the node rows at which they begin, and the row behind them.
pub fn read_pairs(b: &[u8], s: Layout, ends: &[u16], cuts: &mut [u16]) -> bool
    requires { Indexed s b.now ends.now × (s.nodes ≤ length cuts.old) }
    ensures value { result ≡ is_read (pairs_of (matrix_in s b.now)) }
    ensures cuts_after { result ≡ true → take (suc (length (pairs_in s b.now))) cuts.new ≡ pair_cuts 1 (pairs_in s b.now) }
{
    if kind_at(b, s, 0) != OR {
        return false;
    }
    let n = children_at(b, s, 0);
    let mut at: usize = 1;
    for j in 0..n {
        if !is_pair(b, s, at) {
            return false;
        }
        cuts[j] = at as u16;
        at = ends[at] as usize;
    }
    cuts[n] = at as u16;
    true
}
