// The relevant subtree of one variable and the rows of its expansion's raw sheet, by the tables of occurrences.
ghost use Rattle.std.specs.Prelude.{◌≡◌, ◌≤◌};
ghost use Rattle.formula.specs.Tree.{of};
ghost use Rattle.rows.specs.Formulas.{matrix_in};
ghost use Rattle.rows.specs.Tables.{ROWS, HIGHEST};
ghost use Rattle.subtrees.specs.Ends.{Indexed};
ghost use Rattle.occurrences.specs.Occurrences.{Occurrences};
ghost use Rattle.relevance.specs.Raw.{grown, presence, grown_by, copied};

use crate::Range;
use crate::subtree::relevant_subtree;
use rows::Layout;
use subtrees::relevant::Relevant;

// A variable that may be expanded: its prefix row, its number, its relevant subtree if it has a literal, and the raw sheet's node rows.
#[derive(Clone, Copy)]
pub struct Candidate {
    pub row: usize,
    pub variable: usize,
    pub relevant: Option<Relevant>,
    pub raw: usize,
}

// The relevant subtree of the variable `x`, if it has a literal.
pub fn presence_of(
    b: &[u8],
    s: Layout,
    ends: &[u16],
    ranges: &[u16],
    next: &[u16],
    x: usize,
) -> Option<Relevant>
    requires { Indexed s b.now ends.now × Occurrences s b.now ranges.now next.now × (x ≤ HIGHEST) }
    ensures { result ≡ presence (of x) (matrix_in s b.now) }
{
    let first = ranges[2 * x] as usize;
    if s.nodes <= first {
        return None;
    }
    let last = ranges[2 * x + 1] as usize;
    Some(relevant_subtree(b, s, ends, next, Range { first, last }))
}

// How many node rows the raw sheet of an expansion has: N + E + 1 for a single literal and where every child is relevant, N + E + 2
// otherwise.
pub fn raw_rows(nodes: usize, relevant: Relevant) -> usize
    requires { (nodes ≤ ROWS) × (relevant.rows ≤ nodes) }
    ensures { result ≡ grown nodes relevant }
{
    if relevant.all {
        return nodes + relevant.rows + 1;
    }
    nodes + relevant.rows + 2
}

// The same for a variable: N if it has no literal.
pub fn raw_rows_of(nodes: usize, presence: Option<Relevant>) -> usize
    requires { (nodes ≤ ROWS) × (copied presence ≤ nodes) }
    ensures { result ≡ grown_by nodes presence }
{
    match presence {
        None => nodes,
        Some(relevant) => raw_rows(nodes, relevant),
    }
}
