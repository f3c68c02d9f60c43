// Compare: prefixes, then the rows of both sorted trees in lock step. The work buffers are only cleared.
ghost use Rattle.std.specs.Prelude.{◌≡◌, ◌<◌, length, get_or};
ghost use Rattle.formula.specs.Order.{sort, compare_trees, compare_bindings, compare_bound, compare_prefixes, compare_formulas};
ghost use Rattle.sheet.specs.Sheet.{binding};
ghost use Rattle.sheet.specs.Format.{row};
ghost use Rattle.sheet.specs.Order.{is_ordered, compare_answer, compare_call};
ghost use Rattle.rows.specs.Formats.{format_of};
ghost use Rattle.rows.specs.Layouts.{rows_in};
ghost use Rattle.rows.specs.Formulas.{prefix_in, matrix_in, formula_in, Readable};
ghost use Rattle.tree_order.specs.Rows.{ordering};
ghost use Rattle.sort_compare.specs.Answers.{compared_answer, compared_with};
ghost use Rattle.sort_compare.specs.Inner.{checked_answer};

use checking::check;
use rows::bytes::clear;
use rows::read::{argument_at, kind_at};
use rows::refusals::Refusal;
use rows::{Format, Layout, ROWS};
use std::cmp::Ordering;
use tree_order::compare::compare_rows;
use tree_order::table::sort_rows;

// A refusal of the first sheet or of its buffer, or of the second.
#[derive(Clone, Copy, PartialEq, Eq, Debug)]
pub enum CompareRefusal {
    First(Refusal),
    Second(Refusal),
}

// Row `r` of both prefixes: kind before argument.
fn compare_binding(first: &[u8], s: Layout, second: &[u8], t: Layout, r: usize) -> Ordering
    requires { Readable s first.now × (r < s.variables) × Readable t second.now × (r < t.variables) }
    ensures { ordering result ≡ compare_bindings (binding (get_or (rows_in s first.now) r (row 0 0))) (binding (get_or (rows_in t second.now) r (row 0 0))) }
{
    kind_at(first, s, r)
        .cmp(&kind_at(second, t, r))
        .then(argument_at(first, s, r).cmp(&argument_at(second, t, r)))
}

// Two prefixes of as many rows, row by row.
fn compare_bound(first: &[u8], s: Layout, second: &[u8], t: Layout) -> Ordering
    requires { Readable s first.now × Readable t second.now × (s.variables ≡ t.variables) }
    ensures { ordering result ≡ compare_bound (prefix_in s first.now) (prefix_in t second.now) }
{
    for r in 0..s.variables {
        let o = compare_binding(first, s, second, t, r);
        if o.is_ne() {
            return o;
        }
    }
    Ordering::Equal
}

// Two prefixes: fewer rows first, then row by row.
fn compare_prefixes(first: &[u8], s: Layout, second: &[u8], t: Layout) -> Ordering
    requires { Readable s first.now × Readable t second.now }
    ensures { ordering result ≡ compare_prefixes (prefix_in s first.now) (prefix_in t second.now) }
{
    if s.variables != t.variables {
        return s.variables.cmp(&t.variables);
    }
    compare_bound(first, s, second, t)
}

// Two trees, each sorted, by tables of as many numbers as they have rows.
fn compare_sorted(
    first: &[u8],
    s: Layout,
    at: &mut [u16],
    second: &[u8],
    t: Layout,
    to: &mut [u16],
) -> Ordering
    requires { Readable s first.now × (length at.old ≡ s.nodes) × Readable t second.now × (length to.old ≡ t.nodes) }
    ensures { ordering result ≡ compare_trees (sort (matrix_in s first.now)) (sort (matrix_in t second.now)) }
{
    sort_rows(first, s, at);
    sort_rows(second, t, to);
    compare_rows(first, s, at, second, t, to)
}

// Two trees, each sorted.
fn compare_trees(first: &[u8], s: Layout, second: &[u8], t: Layout) -> Ordering
    requires { Readable s first.now × Readable t second.now }
    ensures { ordering result ≡ compare_trees (sort (matrix_in s first.now)) (sort (matrix_in t second.now)) }
{
    let n = s.nodes;
    let m = t.nodes;
    let mut at = [0u16; ROWS];
    let mut to = [0u16; ROWS];
    compare_sorted(first, s, &mut at[..n], second, t, &mut to[..m])
}

// Two sheets: prefixes, then sorted trees.
fn compare_sheets(first: &[u8], s: Layout, second: &[u8], t: Layout) -> Ordering
    requires { Readable s first.now × Readable t second.now }
    ensures { ordering result ≡ compare_formulas (formula_in s first.now) (formula_in t second.now) }
{
    let prefixes = compare_prefixes(first, s, second, t);
    if prefixes.is_ne() {
        return prefixes;
    }
    compare_trees(first, s, second, t)
}

// Compares two sheets that Check accepts, of these layouts: 13 a buffer shorter than its sheet.
fn compare_checked(
    a: &[u8],
    s: Layout,
    b: &[u8],
    t: Layout,
    first: &[u8],
    second: &[u8],
) -> Result<Ordering, CompareRefusal>
    requires { Readable s a.now × Readable t b.now }
    ensures { compared_answer result ≡ checked_answer s t a.now b.now first.now second.now }
{
    if first.len() < a.len() {
        return Err(CompareRefusal::First(Refusal::NoRoom));
    }
    if second.len() < b.len() {
        return Err(CompareRefusal::Second(Refusal::NoRoom));
    }
    Ok(compare_sheets(a, s, b, t))
}

// Decides, and touches nothing: the tests of the first sheet, of the second, and then of the buffers.
fn judge(
    a: &[u8],
    b: &[u8],
    f: Format,
    first: &[u8],
    second: &[u8],
) -> Result<Ordering, CompareRefusal>
    ensures { compared_answer result ≡ compare_answer (format_of f) a.now b.now first.now second.now }
{
    let s = check(a, f).map_err(CompareRefusal::First)?;
    let t = check(b, f).map_err(CompareRefusal::Second)?;
    compare_checked(a, s, b, t, first, second)
}

// Returns whether sheet `a` is before sheet `b`, equal to it or after it, and clears both work buffers; or refuses a sheet or its buffer,
// and alters nothing.
pub fn compare(
    a: &[u8],
    b: &[u8],
    f: Format,
    first: &mut [u8],
    second: &mut [u8],
) -> Result<Ordering, CompareRefusal>
    ensures { compared_with result first.new second.new ≡ compare_call (format_of f) a.now b.now first.old second.old }
{
    let o = judge(a, b, f, first, second)?;
    clear(first, 0);
    clear(second, 0);
    Ok(o)
}
