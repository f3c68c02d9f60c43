// What the clauses of a matrix take: one pass over its rows counts the names, the clauses and their rows, and numbers the names in
// preorder. Conjuncts are the children of a root AND, or the root if it is another tree.
ghost use Rattle.std.specs.Prelude.{◌≡◌, cond, List, ℕ, ◌+◌, ◌*◌, ◌^◌, ◌≤◌, ◌<◌, length, get_or};
ghost use Rattle.formula.specs.Tree.{rows_all, count};
ghost use Rattle.rows.specs.Formulas.{matrix_in, Readable};
ghost use Rattle.subtrees.specs.Ends.{Indexed};
ghost use Rattle.subtrees.specs.Subtrees.{subtree_in};
ghost use Rattle.clauses.specs.Inner.Named.{own_clauses, next_name, first_conjunct};
ghost use Rattle.clauses.specs.Inner.Survey.{Surveyed};

use rows::{AND, Layout, OR};
use subtrees::nodes::{children_at, kind_at};

// How many names there are, how many clauses, and how many rows these have.
#[derive(Clone, Copy)]
pub struct Size {
    pub names: usize,
    pub clauses: usize,
    pub rows: usize,
}

// The node row of the first conjunct.
pub fn first_conjunct(b: &[u8], s: Layout) -> usize
    requires { Readable s b.now }
    ensures { (result ≡ first_conjunct (matrix_in s b.now)) × (result ≤ 1) }
{
    if kind_at(b, s, 0) == AND {
        return 1;
    }
    0
}

// The conjunct that is met next behind row `j`: where `j` is one, that behind its subtree.
pub fn next_conjunct(ends: &[u16], j: usize, conjunct: bool, next: usize) -> usize
    requires { j < length ends.now }
    ensures { result ≡ cond conjunct (get_or ends.now j 0) next }
{
    if conjunct {
        return usize::from(ends[j]);
    }
    next
}

// 1 if the row gets a name: an operator does, but for an OR that is a conjunct.
fn own_names(b: &[u8], s: Layout, j: usize, conjunct: bool) -> usize
    requires { Readable s b.now × (j < s.nodes) }
    ensures { (result ≡ next_name 0 conjunct (subtree_in s b.now j)) × (result ≤ 1) }
{
    let kind = kind_at(b, s, j);
    if kind == AND {
        return 1;
    }
    if kind != OR {
        return 0;
    }
    if conjunct {
        return 0;
    }
    1
}

// How many clauses there are for a row: one for an OR, and else one for each child and one more for a conjunct.
fn own_clauses(b: &[u8], s: Layout, j: usize, conjunct: bool) -> usize
    requires { Readable s b.now × (j < s.nodes) }
    ensures { (L : List ℕ) → result ≡ count (own_clauses L j conjunct (subtree_in s b.now j)) }
{
    if kind_at(b, s, j) == OR {
        return 1;
    }
    let children = children_at(b, s, j);
    if conjunct {
        return children + 1;
    }
    children
}

// How many rows these clauses have: each child's of an AND is an OR of two literals.
fn own_rows(b: &[u8], s: Layout, j: usize, conjunct: bool) -> usize
    requires { Readable s b.now × (j < s.nodes) }
    ensures { (L : List ℕ) → result ≡ rows_all (own_clauses L j conjunct (subtree_in s b.now j)) }
{
    let children = children_at(b, s, j);
    if kind_at(b, s, j) == OR {
        if conjunct {
            return children + 1;
        }
        return children + 2;
    }
    if conjunct {
        return 3 * children + 1;
    }
    3 * children
}

// Counts what the clauses take, and writes to each row's entry from the first conjunct on how many names there are before it.
pub fn survey(b: &[u8], s: Layout, ends: &[u16], names: &mut [u16]) -> Size
    requires { Indexed s b.now ends.now × (s.nodes ≤ length names.old) }
    ensures { Surveyed s b.now names.new result }
{
    let mut count = 0;
    let mut clauses = 0;
    let mut rows = 0;
    let first = first_conjunct(b, s);
    let mut next = first;
    for j in first..s.nodes {
        let conjunct = j == next;
        names[j] = count as u16;
        count += own_names(b, s, j, conjunct);
        clauses += own_clauses(b, s, j, conjunct);
        rows += own_rows(b, s, j, conjunct);
        next = next_conjunct(ends, j, conjunct, next);
    }
    Size {
        names: count,
        clauses,
        rows,
    }
}
