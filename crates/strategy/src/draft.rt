// Rows of a strategy's sheet: those for which the output has room are written, and all are counted. Each function takes the row to write to
// and returns the row behind what it wrote or counted.
ghost use Rattle.std.specs.Prelude.{[], ◌∷◌, ◌++◌, map, ◌≤◌, length};
ghost use Rattle.formula.specs.Strategy.{winner, left};
ghost use Rattle.sheet.specs.Format.{row};
ghost use Rattle.sheet.specs.Sheet.{binding_row};
ghost use Rattle.rows.specs.Formulas.{prefix_in, matrix_in, Readable};
ghost use Rattle.polarity.specs.Value.{Numbered};
ghost use Rattle.pairs.specs.Pairs.{one_pair, pair_rows};
ghost use Rattle.strategy.specs.Inner.Drafts.{Drafted, DraftReady, FrontReady};

use pairs::{count_left, write_front, write_left, write_pair};
use rows::Layout;
use substitution::Target;

// Drafts the prefix of a sheet and the root of a strategy with so many pairs.
pub fn draft_front(b: &[u8], s: Layout, pairs: usize, out: &mut [u8], t: Layout) -> usize
    requires { Readable s b.now × FrontReady s t (length out.old) pairs }
    ensures { Drafted t out.old out.new 0 result (map binding_row (prefix_in s b.now) ++ (row 6 pairs ∷ [])) }
{
    if t.nodes == 0 {
        return s.variables + 1;
    }
    write_front(b, s, pairs, out, t)
}

// Drafts the pair of `x` and the matrix of a sheet, its function.
pub fn draft_pair(b: &[u8], s: Layout, x: usize, out: &mut [u8], to: Target) -> usize
    requires { Readable s b.now × DraftReady s to.layout (length out.old) to.at × (x ≤ 1024) }
    ensures { Drafted to.layout out.old out.new to.at result (one_pair x (matrix_in s b.now)) }
{
    let t = to.layout;
    let next = to.at + (2 + s.nodes);
    if t.variables + t.nodes < next {
        return next;
    }
    write_pair(b, s, x, out, to)
}

// Drafts the pairs of the side's rows that are left, in prefix order, each with the constant 0.
pub fn draft_left(b: &[u8], s: Layout, exists: bool, out: &mut [u8], to: Target) -> usize
    requires { Readable s b.now × Numbered s b.now × DraftReady s to.layout (length out.old) to.at }
    ensures { Drafted to.layout out.old out.new to.at result (pair_rows (left (winner exists) (prefix_in s b.now))) }
{
    let t = to.layout;
    let next = to.at + 3 * count_left(b, s, exists);
    if t.variables + t.nodes < next {
        return next;
    }
    write_left(b, s, exists, out, to)
}
