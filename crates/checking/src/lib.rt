// Check: refusals 1 to 8 of document 01, in its order.
#![tactic(auto)]

ghost use Rattle.std.specs.Prelude.{◌≡◌, false, [], ◌≤◌, ◌<◌, length, get_or, drop, IfOk, OnOk};
ghost use Rattle.sheet.specs.Format.{row};
ghost use Rattle.sheet.specs.Check.{check};
ghost use Rattle.rows.specs.Layouts.{total, rows_in, Room};
ghost use Rattle.rows.specs.Formats.{format_of};
ghost use Rattle.rows.specs.Tables.{NUMBERS};
ghost use Rattle.checking.specs.Answers.{checked_answer};
ghost use Rattle.checking.specs.Inner.Stages.{Sized, bound_in, size_answer, prefix_answer, node_answer, tree_answer};
ghost use Rattle.checking.specs.Inner.Stages.{outside, quantifier, misnumbered, node, Marks, unbound, pay, stage_answer};

use rows::fit::sheet_length;
use rows::places::header;
use rows::read::{argument_at, children_at, kind_at, nodes_at, variables_at};
use rows::refusals::Refusal;
use rows::{
    EXISTS, FOR_ALL, Format, Layout, NEGATIVE, NUMBERS, OR, POSITIVE, most_nodes, most_variables,
};

// Where the debt walk ended: the row reached, and the debt left.
#[derive(Clone, Copy)]
pub struct Reached {
    pub row: usize,
    pub owed: usize,
}

// Whether a size is outside its limits: V above its own, N 0 or above its own.
fn is_outside(f: Format, v: usize, n: usize) -> bool
    ensures { result ≡ outside (format_of f) v n }
{
    most_variables(f) < v || n == 0 || most_nodes(f) < n
}

// The sizes: 1 shorter than the header, 2 a size outside its limits, 3 wrong length.
fn check_sizes(sheet: &[u8], f: Format) -> Result<Layout, Refusal>
    ensures answer { checked_answer result ≡ size_answer f sheet.now }
    ensures format { IfOk result (λ s. s.format ≡ f) }
{
    if sheet.len() < header(f) {
        return Err(Refusal::TooShort);
    }
    let v = variables_at(sheet, f);
    let n = nodes_at(sheet, f);
    if is_outside(f, v, n) {
        return Err(Refusal::SizeOutside);
    }
    if sheet.len() != sheet_length(f, v, n) {
        return Err(Refusal::WrongLength);
    }
    Ok(Layout {
        format: f,
        variables: v,
        nodes: n,
    })
}

// Kinds 1 exists and 2 for all.
fn is_quantifier(kind: u8) -> bool
    ensures { result ≡ quantifier kind }
{
    kind == EXISTS || kind == FOR_ALL
}

// Whether a quantifier number is outside 1 to `most`.
fn is_misnumbered(x: usize, most: usize) -> bool
    ensures { result ≡ misnumbered most x }
{
    x == 0 || most < x
}

// Whether a number is bound.
fn is_bound(bound: &[bool; NUMBERS], x: usize) -> bool
    requires { length bound.now ≡ NUMBERS }
    ensures { result ≡ get_or bound.now x false }
{
    x < NUMBERS && bound[x]
}

// The prefix rows: 4 kind, 5 quantifier number, 6 bound twice. Accepted, the table marks the numbers bound.
fn check_prefix(sheet: &[u8], s: Layout, bound: &mut [bool; NUMBERS]) -> Result<(), Refusal>
    requires { Sized s (length sheet.now) × Marks bound.old [] }
    ensures answer { stage_answer s result ≡ prefix_answer s sheet.now }
    ensures marks { OnOk result (Marks bound.new (bound_in s sheet.now)) }
{
    let most = most_variables(s.format);
    for r in 0..s.variables {
        if !is_quantifier(kind_at(sheet, s, r)) {
            return Err(Refusal::BadKind(r));
        }
        let x = argument_at(sheet, s, r);
        if is_misnumbered(x, most) {
            return Err(Refusal::BadNumber(r));
        }
        if is_bound(bound, x) {
            return Err(Refusal::BoundTwice(r));
        }
        bound[x] = true;
    }
    Ok(())
}

// Kinds 3 and 4, the literals, and 5 and 6, the operators.
fn is_node(kind: u8) -> bool
    ensures { result ≡ node kind }
{
    POSITIVE <= kind && kind <= OR
}

// Whether row `r` is a literal of a number that is not bound.
fn is_unbound(sheet: &[u8], s: Layout, r: usize, bound: &[bool; NUMBERS]) -> bool
    requires { Room s (length sheet.now) × (r < total s) × (length bound.now ≡ NUMBERS) }
    ensures { result ≡ unbound bound.now (get_or (rows_in s sheet.now) r (row 0 0)) }
{
    kind_at(sheet, s, r) <= NEGATIVE && !is_bound(bound, argument_at(sheet, s, r))
}

// The node rows: 4 kind, 7 literal unbound.
fn check_nodes(sheet: &[u8], s: Layout, bound: &[bool; NUMBERS]) -> Result<(), Refusal>
    requires { Sized s (length sheet.now) × Marks bound.now (bound_in s sheet.now) }
    ensures { stage_answer s result ≡ node_answer s sheet.now }
{
    for r in s.variables..s.variables + s.nodes {
        if !is_node(kind_at(sheet, s, r)) {
            return Err(Refusal::BadKind(r));
        }
        if is_unbound(sheet, s, r, bound) {
            return Err(Refusal::Unbound(r));
        }
    }
    Ok(())
}

// Walks the rows from `from` on with one node owed, until nothing is owed or the rows run out.
pub fn walk(sheet: &[u8], s: Layout, from: usize) -> Reached
    requires { Sized s (length sheet.now) × (from ≤ total s) }
    ensures { result ≡ pay 1 from (drop from (rows_in s sheet.now)) }
{
    let end = s.variables + s.nodes;
    let mut owed: usize = 1;
    for row in from..end {
        if owed == 0 {
            return Reached { row, owed };
        }
        owed = owed - 1 + children_at(sheet, s, row);
    }
    Reached { row: end, owed }
}

// 8 not one tree, at the row where the debt walk ends.
fn check_tree(sheet: &[u8], s: Layout) -> Result<(), Refusal>
    requires { Sized s (length sheet.now) }
    ensures { stage_answer s result ≡ tree_answer s sheet.now }
{
    let reached = walk(sheet, s, s.variables);
    if reached.owed != 0 || reached.row != s.variables + s.nodes {
        return Err(Refusal::NotOneTree(reached.row));
    }
    Ok(())
}

// Checks a sheet of a format: accepted with its layout, or refused.
pub fn check(sheet: &[u8], f: Format) -> Result<Layout, Refusal>
    ensures answer { checked_answer result ≡ check (format_of f) sheet.now }
    ensures format { IfOk result (λ s. s.format ≡ f) }
{
    let s = check_sizes(sheet, f)?;
    let mut bound = [false; NUMBERS];
    check_prefix(sheet, s, &mut bound)?;
    check_nodes(sheet, s, &bound)?;
    check_tree(sheet, s)?;
    Ok(s)
}
