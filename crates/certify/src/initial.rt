// Initial steps: whether the constraint of each settles the matrix.
ghost use Rattle.std.specs.Prelude.{◌≡◌, not, ◌*◌, ◌^◌, ◌≤◌, ◌<◌, length, get_or};
ghost use Rattle.formula.specs.Certificates.{settles};
ghost use Rattle.sets.specs.Sets.{IsFirst};
ghost use Rattle.sheet.specs.Format.{row};
ghost use Rattle.sheet.specs.Certificates.{side_for};
ghost use Rattle.rows.specs.Formulas.{node_rows_in, matrix_in, Readable};
ghost use Rattle.resolution.specs.Codes.{Wide};
ghost use Rattle.resolution.specs.Steps.{constraint_in};
ghost use Rattle.jumps.specs.Jumps.{value_by, row_value, next};
ghost use Rattle.certify.specs.Inner.Initial.{marked, valued, Settling, settled_at, NextInitial};

use jumps::to_row;
use resolution::marks::mark;
use resolution::words::{CODES, MARKS, Part, head_word, part_of};
use rows::Layout;
use subtrees::nodes::{argument_at, children_at, kind_at};

// A claim: the sheet's layout, the verdict, and how many steps are to be tested.
#[derive(Clone, Copy)]
pub struct Claim {
    pub layout: Layout,
    pub verdict: bool,
    pub steps: usize,
}

// Whether a literal is in a set of codes; numbers that no code says are in none.
fn is_marked(marks: &[u64], x: usize, positive: bool) -> bool
    requires { Wide marks.now }
    ensures { result ≡ marked marks.now positive x }
{
    x < 2048 && sets::holds(marks, 2 * x + usize::from(!positive))
}

// The value of row `i`, a literal or an operator that has no child.
fn row_value(sheet: &[u8], q: Claim, marks: &[u64], i: usize) -> bool
    requires { Readable q.layout sheet.now × Wide marks.now × (i < q.layout.nodes) }
    ensures { result ≡ row_value (get_or (node_rows_in q.layout sheet.now) i (row 0 0)) (valued q.verdict marks.now) }
{
    let s = q.layout;
    let kind = kind_at(sheet, s, i);
    if kind <= rows::NEGATIVE {
        let x = argument_at(sheet, s, i);
        return is_marked(marks, x, kind == rows::POSITIVE) == q.verdict;
    }
    kind == rows::AND
}

// The row at which evaluation goes on after row `i`.
fn next(sheet: &[u8], q: Claim, high: &[u16], low: &[u16], marks: &[u64], i: usize) -> usize
    requires { Settling q sheet.now high.now low.now × Wide marks.now × (i < q.layout.nodes) }
    ensures { result ≡ next (node_rows_in q.layout sheet.now) high.now low.now (valued q.verdict marks.now) i }
{
    let s = q.layout;
    if children_at(sheet, s, i) != 0 {
        return i + 1;
    }
    if row_value(sheet, q, marks, i) {
        return to_row(high[i]);
    }
    to_row(low[i])
}

// The matrix's value, with the marked literals at the verdict: one pass that jumps over every subtree once its parent is decided.
fn evaluate(sheet: &[u8], q: Claim, high: &[u16], low: &[u16], marks: &[u64]) -> bool
    requires { Settling q sheet.now high.now low.now × Wide marks.now }
    ensures { result ≡ value_by (matrix_in q.layout sheet.now) (valued q.verdict marks.now) }
{
    let n = q.layout.nodes;
    let mut i = 0;
    while i < n {
        i = next(sheet, q, high, low, marks, i);
    }
    i == n
}

// Whether the constraint of a part settles the matrix.
fn settles(sheet: &[u8], q: Claim, high: &[u16], low: &[u16], codes: &[u32], p: Part) -> bool
    requires { Settling q sheet.now high.now low.now × (p.to ≤ length codes.now) × (p.skip ≡ 4096) }
    ensures { result ≡ settles (side_for q.verdict) (constraint_in p codes.now) (matrix_in q.layout sheet.now) }
{
    let mut marks = [0u64; MARKS];
    mark(codes, p, &mut marks);
    evaluate(sheet, q, high, low, &marks) == q.verdict
}

// The first initial step from step `from` on and before step `end`, or `end`.
fn next_initial(heads: &[u32], from: usize, end: usize) -> usize
    requires { (from ≤ end) × (4 * end ≤ length heads.now) }
    ensures { NextInitial heads.now from end result }
{
    for k in from..end {
        if head_word(heads, k, 0) == 0 {
            return k;
        }
    }
    end
}

// The first initial step of a claim's that doesn't settle the matrix, or the number of steps.
pub fn first_unsettled(
    sheet: &[u8],
    q: Claim,
    high: &[u16],
    low: &[u16],
    heads: &[u32],
    codes: &[u32],
) -> usize
    requires { Settling q sheet.now high.now low.now × (4 * q.steps ≤ length heads.now) }
    ensures { IsFirst (λ k. not (settled_at q.verdict (matrix_in q.layout sheet.now) heads.now codes.now k))
        q.steps result }
{
    let end = q.steps;
    let mut k = next_initial(heads, 0, end);
    while k < end {
        let p = part_of(heads, codes, k, CODES);
        if !settles(sheet, q, high, low, codes, p) {
            return k;
        }
        k = next_initial(heads, k + 1, end);
    }
    k
}
