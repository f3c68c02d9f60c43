// The table of subtree ends. Rows in preorder don't say where a subtree ends; with the table a walk over the children of an operator
// hops from one to the next.
ghost use Rattle.std.specs.Prelude.{◌≡◌, ◌≤◌, length, drop};
ghost use Rattle.rows.specs.Formulas.{Readable};
ghost use Rattle.subtrees.specs.Ends.{Indexed, hops, Hops};

use crate::nodes::children_at;
use rows::Layout;

// The row behind `count` subtrees that stand side by side from row `from` on.
fn hop(ends: &[u16], from: usize, count: usize) -> usize
    requires { Hops ends.now from count }
    ensures { result ≡ hops ends.now from count }
{
    let mut at = from;
    for _ in 0..count {
        at = usize::from(ends[at]);
    }
    at
}

// Fills `ends` with the row behind each node row's subtree, from the last row to the first; entries past the node rows stay.
pub fn fill_ends(b: &[u8], s: Layout, ends: &mut [u16])
    requires { Readable s b.now × (s.nodes ≤ length ends.old) }
    ensures indexed { Indexed s b.now ends.new }
    ensures ends_unchanged { drop s.nodes ends.new ≡ drop s.nodes ends.old }
{
    for i in (0..s.nodes).rev() {
        let children = children_at(b, s, i);
        ends[i] = hop(ends, i + 1, children) as u16;
    }
}
