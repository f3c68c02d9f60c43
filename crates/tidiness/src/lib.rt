// Tidiness: the first operator at fault ("Tidy sheets", refusal 9).
#![tactic(auto)]

ghost use Rattle.std.specs.Prelude.{◌≡◌, cond, ◌<◌};
ghost use Rattle.formula.specs.Tidy.{is_tidy, first_fault};
ghost use Rattle.rows.specs.Formulas.{matrix_in};
ghost use Rattle.subtrees.specs.Subtrees.{subtree_in, siblings_in, Beside};
ghost use Rattle.subtrees.specs.Ends.{Indexed};
ghost use Rattle.tidiness.specs.Faults.{some_kind, plain_fault};

use buckets::BUCKETS;
use duplicates::hashes::fill_hashes;
use duplicates::{gather, some_clash};
use rows::{Layout, ROWS};
use subtrees::nodes::{argument_at, kind_at};

// Subtrees that stand side by side: the node row of the first, and how many are left.
#[derive(Clone, Copy)]
struct Siblings {
    at: usize,
    left: usize,
}

// Whether one of siblings is of this kind.
fn some_kind(b: &[u8], s: Layout, ends: &[u16], c: Siblings, kind: u8) -> bool
    requires { Indexed s b.now ends.now × Beside s b.now c.at c.left }
    ensures { result ≡ some_kind kind (siblings_in s b.now c.at c.left) }
{
    let mut at = c.at;
    for _ in 0..c.left {
        if kind_at(b, s, at) == kind {
            return true;
        }
        at = usize::from(ends[at]);
    }
    false
}

// Whether node row `i` is an operator at fault, by the limits that don't compare two children: only the root may be childless, no child is
// alone, and none is of its parent's kind.
fn at_fault(b: &[u8], s: Layout, ends: &[u16], i: usize) -> bool
    requires { Indexed s b.now ends.now × (i < s.nodes) }
    ensures { result ≡ plain_fault i (subtree_in s b.now i) }
{
    let kind = kind_at(b, s, i);
    if kind <= rows::NEGATIVE {
        return false;
    }
    match argument_at(b, s, i) {
        0 => i != 0,
        1 => true,
        count => {
            let children = Siblings {
                at: i + 1,
                left: count,
            };
            some_kind(b, s, ends, children, kind)
        }
    }
}

// The first node row that is an operator at fault; of a tidy sheet, the number of node rows.
pub fn first_fault(b: &[u8], s: Layout, ends: &[u16]) -> usize
    requires { Indexed s b.now ends.now }
    ensures { result ≡ cond (is_tidy (matrix_in s b.now)) s.nodes (first_fault (matrix_in s b.now)) }
{
    let mut hashes = [0u16; ROWS];
    fill_hashes(b, s, ends, &mut hashes);
    let mut heads = [0u16; BUCKETS];
    let mut links = [0u16; ROWS];
    let mut members = [0u32; ROWS];
    for i in 0..s.nodes {
        if at_fault(b, s, ends, i) {
            return i;
        }
        let n = gather(b, s, ends, &hashes, &mut members, i);
        if some_clash(b, s, &mut heads, &mut links, &mut members, n) {
            return i;
        }
    }
    s.nodes
}
