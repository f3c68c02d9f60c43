// Pairs of a variable and its function, written as rows of a strategy's sheet: below the root, an OR, one AND for each pair, with the
// variable's positive literal and then the function's tree.
#![tactic(auto)]

ghost use Rattle.std.specs.Prelude.{◌≡◌, [], ◌∷◌, ◌++◌, map, ◌+◌, ◌≤◌, ◌<◌, length};
ghost use Rattle.formula.specs.Strategy.{winner, left};
ghost use Rattle.sheet.specs.Format.{row};
ghost use Rattle.sheet.specs.Sheet.{binding_row};
ghost use Rattle.rows.specs.Layouts.{Fits, total, Room};
ghost use Rattle.rows.specs.Formulas.{prefix_in, matrix_in, Readable};
ghost use Rattle.substitution.specs.Output.{CopyReady, Laid};
ghost use Rattle.prefixes.specs.Places.{binding_in};
ghost use Rattle.pairs.specs.Pairs.{head_rows, one_pair, row_left, pair_rows, PairReady, LeftReady};

use prefixes::{bound_at, is_existential};
use rows::{AND, Layout, OR, POSITIVE};
use substitution::write::{write_row, write_rows};
use substitution::{Span, Target};

// Writes the prefix of a sheet and the root of a strategy with so many pairs.
pub fn write_front(b: &[u8], s: Layout, pairs: usize, out: &mut [u8], t: Layout) -> usize
    requires { Readable s b.now × CopyReady s b.now t out.old × (s.variables < total t) × Fits t pairs }
    ensures { Laid t out.old out.new 0 result (map binding_row (prefix_in s b.now) ++ (row 6 pairs ∷ [])) }
{
    let prefix = Span {
        from: 0,
        to: s.variables,
    };
    let at = write_rows(b, s, prefix, out, Target { layout: t, at: 0 });
    write_row(out, Target { layout: t, at }, OR, pairs)
}

// Writes the operator of a pair and its variable's literal.
fn write_head(x: usize, out: &mut [u8], to: Target) -> usize
    requires { Room to.layout (length out.old) × (to.at + 2 ≤ total to.layout) × Fits to.layout x }
    ensures { Laid to.layout out.old out.new to.at result (head_rows x) }
{
    let at = write_row(out, to, AND, 2);
    write_row(out, Target { at, ..to }, POSITIVE, x)
}

// Writes the pair of `x` and the matrix of a sheet, its function.
pub fn write_pair(b: &[u8], s: Layout, x: usize, out: &mut [u8], to: Target) -> usize
    requires { Readable s b.now × PairReady s b.now to.layout out.old to.at x }
    ensures { Laid to.layout out.old out.new to.at result (one_pair x (matrix_in s b.now)) }
{
    let matrix = Span {
        from: s.variables,
        to: s.variables + s.nodes,
    };
    let at = write_head(x, out, to);
    write_rows(b, s, matrix, out, Target { at, ..to })
}

// Writes the pair of prefix row `i` with the constant 0, if the row is of the side: exists, or for all.
fn write_if_left(b: &[u8], s: Layout, exists: bool, i: usize, out: &mut [u8], to: Target) -> usize
    requires readable { Readable s b.now × (i < s.variables) × Room to.layout (length out.old) × Fits to.layout (binding_in s b.now i).variable }
    requires i_bound { to.at + length (row_left (winner exists) (binding_in s b.now i)) ≤ total to.layout }
    ensures { Laid to.layout out.old out.new to.at result (row_left (winner exists) (binding_in s b.now i)) }
{
    if is_existential(b, s, i) != exists {
        return to.at;
    }
    let at = write_head(bound_at(b, s, i), out, to);
    write_row(out, Target { at, ..to }, OR, 0)
}

// Writes the pairs of the side's rows that are left, in prefix order, each with the constant 0.
pub fn write_left(b: &[u8], s: Layout, exists: bool, out: &mut [u8], to: Target) -> usize
    requires { Readable s b.now × LeftReady (winner exists) s b.now to.layout out.old to.at }
    ensures { Laid to.layout out.old out.new to.at result (pair_rows (left (winner exists) (prefix_in s b.now))) }
{
    let mut at = to.at;
    for i in 0..s.variables {
        at = write_if_left(b, s, exists, i, out, Target { at, ..to });
    }
    at
}

// Whether prefix row `i` is of the side, as a number.
fn one_if_left(b: &[u8], s: Layout, exists: bool, i: usize) -> usize
    requires { Readable s b.now × (i < s.variables) }
    ensures { (result ≡ length (left (winner exists) (binding_in s b.now i ∷ []))) × (result ≤ 1) }
{
    usize::from(is_existential(b, s, i) == exists)
}

// How many of the side's rows are left.
pub fn count_left(b: &[u8], s: Layout, exists: bool) -> usize
    requires { Readable s b.now }
    ensures { result ≡ length (left (winner exists) (prefix_in s b.now)) }
{
    let mut n = 0;
    for i in (0..s.variables).rev() {
        n += one_if_left(b, s, exists, i);
    }
    n
}
