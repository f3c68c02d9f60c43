// The hashes of a matrix's subtrees, filled from the last row to the first.
ghost use Rattle.std.specs.Prelude.{◌≡◌, suc, ◌<◌, ◌≤◌, length};
ghost use Rattle.subtrees.specs.Subtrees.{subtree_in};
ghost use Rattle.subtrees.specs.Ends.{Indexed};
ghost use Rattle.buckets.specs.Hashes.{hash};
ghost use Rattle.duplicates.specs.Hashes.{mixes, Mixes, Hashed};

use buckets::hash::{literal_hash, mixed};
use rows::Layout;
use subtrees::nodes::{argument_at, kind_at};

// The hashes of `count` subtrees side by side from node row `from` on, mixed into `start`.
fn mix_siblings(ends: &[u16], hashes: &[u16], from: usize, count: usize, start: usize) -> usize
    requires { Mixes ends.now hashes.now from count × (start < 65536) }
    ensures { (result ≡ mixes ends.now hashes.now from count start) × (result < 65536) }
{
    let mut at = from;
    let mut h = start;
    for _ in 0..count {
        h = mixed(h, usize::from(hashes[at]));
        at = usize::from(ends[at]);
    }
    h
}

// The hash of the subtree at node row `i`, from the hashes of the rows behind it.
fn hash_at(b: &[u8], s: Layout, ends: &[u16], hashes: &[u16], i: usize) -> usize
    requires { Indexed s b.now ends.now × (i < s.nodes) × Hashed s b.now hashes.now (suc i) }
    ensures { (result ≡ hash (subtree_in s b.now i)) × (result < 65536) }
{
    let kind = kind_at(b, s, i);
    let argument = argument_at(b, s, i);
    if kind <= rows::NEGATIVE {
        return literal_hash(usize::from(rows::NEGATIVE - kind), argument);
    }
    mix_siblings(ends, hashes, i + 1, argument, usize::from(kind))
}

// Fills the table of hashes.
pub fn fill_hashes(b: &[u8], s: Layout, ends: &[u16], hashes: &mut [u16])
    requires { Indexed s b.now ends.now × (s.nodes ≤ length hashes.old) }
    ensures { Hashed s b.now hashes.new 0 }
{
    for i in (0..s.nodes).rev() {
        hashes[i] = hash_at(b, s, ends, hashes, i) as u16;
    }
}
