// What is expanded: the literals that the second copy's table changes, with the part of the matrix that they choose.
ghost use Rattle.std.specs.Prelude.{◌≡◌, ◌≤◌, length};
ghost use Rattle.rows.specs.Tables.{NUMBERS};
ghost use Rattle.subtrees.specs.Ends.{Indexed};
ghost use Rattle.outer.specs.Inner.Draft.{DraftsChosen};

use crate::chain::link_chosen;
use dependence::Target;
use elimination::survey::Draft;
use relevance::subtree::relevant_subtree;
use relevance::variable::raw_rows_of;
use rows::AND;

// The draft of an expansion of the literals that a table changes, for a raw sheet with so many variables; the literals are linked in
// `next`. The copies of a universal variable are joined by AND.
pub fn draft_chosen(
    b: &[u8],
    t: Target,
    ends: &[u16],
    table: &[u16],
    variables: usize,
    next: &mut [u16],
) -> Draft
    requires { Indexed t.layout b.now ends.now × (length table.now ≡ NUMBERS) × (t.layout.nodes ≤ length next.old) }
    ensures { DraftsChosen table.now b.now t variables ends.now next.new result }
{
    let s = t.layout;
    let r = link_chosen(b, s, table, next);
    let relevant = if r.first < s.nodes {
        Some(relevant_subtree(b, s, ends, next, r))
    } else {
        None
    };
    Draft {
        relevant,
        first: r.first,
        raw: raw_rows_of(s.nodes, relevant),
        row: t.row,
        variables,
        joint: AND,
    }
}
