// Siblings that a tidy sheet doesn't have: two literals of one variable, or equal operators (N4). They are found by their hashes; operators
// with equal hashes are compared in full, row by row.
#![tactic(auto)]

ghost use Rattle.std.specs.Prelude.{◌≡◌, not, ◌+◌, ◌<◌, ◌≤◌, length, get_or};
ghost use Rattle.formula.specs.Tidy.{same_variable, same_tree};
ghost use Rattle.rows.specs.Formulas.{Readable};
ghost use Rattle.subtrees.specs.Subtrees.{top, kids, subtree_in};
ghost use Rattle.subtrees.specs.Ends.{Indexed};
ghost use Rattle.buckets.specs.Chains.{Room, Linked};
ghost use Rattle.duplicates.specs.Hashes.{Hashed};
ghost use Rattle.duplicates.specs.Members.{clash, same_top, tree_of, Member, Members, some_member, clashes_with, two_clash, Gathered, Adds};

use buckets::half::{hash_of, member_of, row_of};
use buckets::{add, behind, bucket_of, first, member};
use rows::Layout;
use subtrees::nodes::{argument_at, children_at, kind_at};

pub mod hashes;

// Whether node rows `i` and `j` differ.
fn differ(b: &[u8], s: Layout, i: usize, j: usize) -> bool
    requires { Readable s b.now × (i < s.nodes) × (j < s.nodes) }
    ensures { result ≡ not (same_top (subtree_in s b.now i) (subtree_in s b.now j)) }
{
    kind_at(b, s, i) != kind_at(b, s, j) || argument_at(b, s, i) != argument_at(b, s, j)
}

// Whether the subtrees at node rows `i` and `j` are the same: compared row by row until they end or differ.
fn same_at(b: &[u8], s: Layout, i: usize, j: usize) -> bool
    requires { Readable s b.now × (i < s.nodes) × (j < s.nodes) }
    ensures { result ≡ same_tree (subtree_in s b.now i) (subtree_in s b.now j) }
{
    let mut at = i;
    let mut other = j;
    let mut left: usize = 1;
    while 0 < left {
        if differ(b, s, at, other) {
            return false;
        }
        left = left - 1 + children_at(b, s, at);
        at += 1;
        other += 1;
    }
    true
}

// Whether the subtree at node row `j` is a literal of the variable of the literal at node row `i`.
fn same_variable(b: &[u8], s: Layout, i: usize, j: usize) -> bool
    requires { Readable s b.now × (i < s.nodes) × (j < s.nodes) × ((top (subtree_in s b.now i)).kind ≤ 4) }
    ensures { result ≡ same_variable (subtree_in s b.now i) (subtree_in s b.now j) }
{
    kind_at(b, s, j) <= rows::NEGATIVE && argument_at(b, s, i) == argument_at(b, s, j)
}

// Whether two members clash: they are literals of one variable, or equal operators.
fn members_clash(b: &[u8], s: Layout, m: usize, w: usize) -> bool
    requires { Readable s b.now × Member s b.now m × Member s b.now w }
    ensures { result ≡ clash (tree_of s b.now m) (tree_of s b.now w) }
{
    let i = row_of(m);
    let j = row_of(w);
    if kind_at(b, s, i) <= rows::NEGATIVE {
        return same_variable(b, s, i, j);
    }
    hash_of(m) == hash_of(w) && same_at(b, s, i, j)
}

// Whether a member before member `n` clashes with it.
fn clashes(b: &[u8], s: Layout, heads: &[u16], links: &[u16], members: &[u32], n: usize) -> bool
    requires { Readable s b.now × Members s b.now members.now (n + 1) × Room heads.now links.now members.now (n + 1) × Linked heads.now links.now members.now n }
    ensures { result ≡ some_member (clashes_with s b.now (get_or members.now n 0)) members.now n }
{
    let m = member(members, n);
    let mut link = first(heads, members, n, bucket_of(m));
    while let Some(i) = link {
        if members_clash(b, s, member(members, i), m) {
            return true;
        }
        link = behind(links, i);
    }
    false
}

// Whether two of the first `count` members clash. The tables may hold anything at first.
pub fn some_clash(
    b: &[u8],
    s: Layout,
    heads: &mut [u16],
    links: &mut [u16],
    members: &mut [u32],
    count: usize,
) -> bool
    requires { Readable s b.now × Members s b.now members.old count × Room heads.old links.old members.old count }
    ensures { result ≡ two_clash s b.now members.old count }
{
    for n in 0..count {
        if clashes(b, s, heads, links, members, n) {
            return true;
        }
        let m = member(members, n);
        add(heads, links, members, n, m);
    }
    false
}

// Adds the subtree at node row `at` as a member behind the first `n`.
fn put(b: &[u8], s: Layout, hashes: &[u16], members: &mut [u32], at: usize, n: usize)
    requires { Readable s b.now × (at < s.nodes) × Hashed s b.now hashes.now at × (n < length members.old) }
    ensures { Adds s b.now (subtree_in s b.now at) members.old n members.new (n + 1) }
{
    members[n] = member_of(at, usize::from(hashes[at])) as u32;
}

// Gathers the children of the subtree at node row `i`, and returns how many there are.
pub fn gather(
    b: &[u8],
    s: Layout,
    ends: &[u16],
    hashes: &[u16],
    members: &mut [u32],
    i: usize,
) -> usize
    requires { Indexed s b.now ends.now × (i < s.nodes) × Hashed s b.now hashes.now 0 × (s.nodes ≤ length members.old) }
    ensures { Gathered s b.now members.new result (kids (subtree_in s b.now i)) × (result ≤ s.nodes) }
{
    let count = children_at(b, s, i);
    let mut at = i + 1;
    for n in 0..count {
        put(b, s, hashes, members, at, n);
        at = usize::from(ends[at]);
    }
    count
}
