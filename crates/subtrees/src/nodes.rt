// What a node row contains.
ghost use Rattle.std.specs.Prelude.{◌≡◌, ◌^◌, ◌<◌};
ghost use Rattle.formula.specs.Tree.{count};
ghost use Rattle.rows.specs.Formulas.{Readable};
ghost use Rattle.subtrees.specs.Subtrees.{top, kids, subtree_in};

use rows::Layout;

// The kind of node row `i`.
pub fn kind_at(b: &[u8], s: Layout, i: usize) -> u8
    requires { Readable s b.now × (i < s.nodes) }
    ensures { result ≡ (top (subtree_in s b.now i)).kind }
{
    rows::read::kind_at(b, s, s.variables + i)
}

// The argument of node row `i`.
pub fn argument_at(b: &[u8], s: Layout, i: usize) -> usize
    requires { Readable s b.now × (i < s.nodes) }
    ensures { (result ≡ (top (subtree_in s b.now i)).argument) × (result < 2 ^ 32) }
{
    rows::read::argument_at(b, s, s.variables + i)
}

// How many children the subtree at node row `i` has.
pub fn children_at(b: &[u8], s: Layout, i: usize) -> usize
    requires { Readable s b.now × (i < s.nodes) }
    ensures { (result ≡ count (kids (subtree_in s b.now i))) × (result < 2 ^ 32) }
{
    rows::read::children_at(b, s, s.variables + i)
}
