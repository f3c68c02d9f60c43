// Trial: decides a formula by trying values, 0 first, along its semantic tree.
#![tactic(auto)]

ghost use Rattle.std.specs.Prelude.{◌≡◌, ◌+◌, ◌^◌, ◌≤◌, ◌<◌, length, get_or};
ghost use Rattle.std.specs.Bool.{beq};
ghost use Rattle.formula.specs.Truth.{eval};
ghost use Rattle.sheet.specs.Format.{row};
ghost use Rattle.sheet.specs.Operations.{trial_call};
ghost use Rattle.sheet.specs.Truthful.{truth_of, TruthfulTrial};
ghost use Rattle.rows.specs.Formats.{format_of};
ghost use Rattle.rows.specs.Formulas.{node_rows_in, matrix_in, Readable};
ghost use Rattle.rows.specs.Tables.{NUMBERS};
ghost use Rattle.trial.specs.Answers.{tried_answer};
ghost use Rattle.jumps.specs.Jumps.{Rooms, signed, row_value, next, Jumps};
ghost use Rattle.trial.specs.Inner.Turns.{values, tried, turns, semantic_tree, Playable, TurnsReady, Turned};

use jumps::{build, to_row};
use prefixes::{bound_at, is_existential};
use rows::refusals::Refusal;
use rows::{Format, Layout};
use subtrees::nodes::{argument_at, children_at, kind_at};

// A verdict and the leaves tried.
#[derive(Clone, Copy, PartialEq, Eq, Debug)]
pub struct Tried {
    pub verdict: bool,
    pub leaves: u64,
}

// The value of a variable; the numbers past the table are unassigned, and false.
fn value_of(assignment: &[bool], x: usize) -> bool
    ensures { result ≡ values assignment.now x }
{
    x < assignment.len() && assignment[x]
}

// The value of row `i`, a literal or an operator that has no child.
fn row_value(sheet: &[u8], s: Layout, assignment: &[bool], i: usize) -> bool
    requires { Readable s sheet.now × (i < s.nodes) }
    ensures { result ≡ row_value (get_or (node_rows_in s sheet.now) i (row 0 0)) (signed (values assignment.now)) }
{
    let kind = kind_at(sheet, s, i);
    if kind <= rows::NEGATIVE {
        let value = value_of(assignment, argument_at(sheet, s, i));
        return (kind == rows::POSITIVE) == value;
    }
    kind == rows::AND
}

// The row at which evaluation goes on after row `i`.
fn next(sheet: &[u8], s: Layout, high: &[u16], low: &[u16], assignment: &[bool], i: usize) -> usize
    requires { Readable s sheet.now × (i < s.nodes) × Rooms s.nodes high.now low.now }
    ensures { result ≡ next (node_rows_in s sheet.now) high.now low.now (signed (values assignment.now)) i }
{
    if children_at(sheet, s, i) != 0 {
        return i + 1;
    }
    if row_value(sheet, s, assignment, i) {
        return to_row(high[i]);
    }
    to_row(low[i])
}

// The matrix's value: one pass that jumps over every subtree once its parent is decided.
fn evaluate(sheet: &[u8], s: Layout, high: &[u16], low: &[u16], assignment: &[bool]) -> bool
    requires { Readable s sheet.now × Jumps (node_rows_in s sheet.now) high.now low.now × Rooms s.nodes high.now low.now }
    ensures { result ≡ eval (matrix_in s sheet.now) (values assignment.now) }
{
    let mut i = 0;
    while i < s.nodes {
        i = next(sheet, s, high, low, assignment, i);
    }
    i == s.nodes
}

// A leaf of the semantic tree: no prefix row is left.
fn leaf(sheet: &[u8], s: Layout, high: &[u16], low: &[u16], assignment: &[bool]) -> Tried
    requires { TurnsReady s sheet.now high.now low.now (length assignment.now) }
    ensures { tried result ≡ turns s sheet.now s.variables assignment.now }
{
    Tried {
        verdict: evaluate(sheet, s, high, low, assignment),
        leaves: 1,
    }
}

// Whether a turn stops after its first value: it does if that value's verdict is the one that its side wants.
fn stops(zero: Tried, verdict: bool) -> bool
    ensures { result ≡ beq verdict zero.verdict }
{
    verdict == zero.verdict
}

// A turn that did not stop at its first value: the second one's verdict, and the leaves of both.
fn both(zero: Tried, one: Tried) -> Tried
    requires { zero.leaves + one.leaves < 2 ^ 64 }
    ensures { (result.verdict ≡ one.verdict) × (result.leaves ≡ zero.leaves + one.leaves) }
{
    Tried {
        verdict: one.verdict,
        leaves: zero.leaves + one.leaves,
    }
}

// An existential turn hands over to the universal side if that owns the next row, and stops at true.
#[cycle(existential_universal)]
fn existential(
    sheet: &[u8],
    s: Layout,
    high: &[u16],
    low: &[u16],
    assignment: &mut [bool],
    i: usize,
) -> Tried
    requires { TurnsReady s sheet.now high.now low.now (length assignment.old) × (i ≤ s.variables) }
    ensures { Turned s sheet.now i assignment.old result assignment.new }
{
    if i == s.variables {
        return leaf(sheet, s, high, low, assignment);
    }
    if !is_existential(sheet, s, i) {
        return universal(sheet, s, high, low, assignment, i);
    }
    let x = bound_at(sheet, s, i);
    let old = assignment[x];
    assignment[x] = false;
    let zero = existential(sheet, s, high, low, assignment, i + 1);
    if stops(zero, true) {
        assignment[x] = old;
        return zero;
    }
    assignment[x] = true;
    let one = existential(sheet, s, high, low, assignment, i + 1);
    assignment[x] = old;
    both(zero, one)
}

// A universal turn hands over to the existential side if that owns the next row, and stops at false.
#[cycle(existential_universal)]
fn universal(
    sheet: &[u8],
    s: Layout,
    high: &[u16],
    low: &[u16],
    assignment: &mut [bool],
    i: usize,
) -> Tried
    requires { TurnsReady s sheet.now high.now low.now (length assignment.old) × (i ≤ s.variables) }
    ensures { Turned s sheet.now i assignment.old result assignment.new }
{
    if i == s.variables {
        return leaf(sheet, s, high, low, assignment);
    }
    if is_existential(sheet, s, i) {
        return existential(sheet, s, high, low, assignment, i);
    }
    let y = bound_at(sheet, s, i);
    let old = assignment[y];
    assignment[y] = false;
    let zero = universal(sheet, s, high, low, assignment, i + 1);
    if stops(zero, false) {
        assignment[y] = old;
        return zero;
    }
    assignment[y] = true;
    let one = universal(sheet, s, high, low, assignment, i + 1);
    assignment[y] = old;
    both(zero, one)
}

// Tries the whole semantic tree of a checked sheet; the first assignment is never read.
fn semantic_tree(sheet: &[u8], s: Layout) -> Tried
    requires { Playable s sheet.now NUMBERS }
    ensures { tried result ≡ semantic_tree s sheet.now }
{
    let mut high = [0u16; rows::ROWS];
    let mut low = [0u16; rows::ROWS];
    let mut assignment = [false; rows::NUMBERS];
    build(sheet, s, &mut high, &mut low);
    existential(sheet, s, &high, &low, &mut assignment, 0)
}

// Decides a sheet by trying values: the verdict and the leaves tried, or refused: 1 to 8, then 14.
pub fn trial(sheet: &[u8], f: Format) -> Result<Tried, Refusal>
    ensures result_value { tried_answer result ≡ trial_call (format_of f) sheet.now }
    ensures truthful_trial { TruthfulTrial (truth_of (format_of f) sheet.now) (tried_answer result) }
{
    let s = checking::check(sheet, f)?;
    if 20 < s.variables {
        return Err(Refusal::TooManyToTry);
    }
    Ok(semantic_tree(sheet, s))
}
