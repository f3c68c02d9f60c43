// What a walk over a part gathers: the set of its codes, and the last rank among them.
ghost use Rattle.std.specs.Prelude.{◌≡◌, ◌||◌, ℕ, ◌*◌, ◌≤◌, ◌<◌, eqb, ltb, length};
ghost use Rattle.sets.specs.Sets.{holds};
ghost use Rattle.resolution.specs.Codes.{kept, Adds, Wide, Marked, ranked_behind};

use crate::words::{Part, code_at};

// Puts a code into the set, unless it is to be left out.
fn add_kept(set: &mut [u64], skip: usize, c: usize)
    requires { Wide set.old × (c < 4096) }
    ensures set_len_unchanged { length set.new ≡ length set.old }
    ensures by_index { (u : ℕ) → holds set.new u ≡ (kept skip (eqb u) c || holds set.old u) }
{
    if skip != c {
        sets::add(set, c);
    }
}

// Puts the codes of a part into the set.
pub fn mark(codes: &[u32], p: Part, set: &mut [u64])
    requires { Wide set.old × (p.to ≤ length codes.now) }
    ensures { Marked p codes.now set.old set.new }
{
    for i in p.from..p.to {
        add_kept(set, p.skip, code_at(codes, i));
    }
}

// The later of a rank and that of a code's variable, unless it is to be left out.
fn later(ranks: &[u16], skip: usize, c: usize, last: u16) -> u16
    requires { (2048 ≤ length ranks.now) × (c < 4096) }
    ensures { (u : ℕ) → ltb u result ≡ (kept skip (ranked_behind ranks.now u) c || ltb u last) }
{
    if skip == c {
        return last;
    }
    last.max(ranks[c / 2])
}

// The last rank among the codes of a part, or `last` if that is later.
pub fn last_rank(codes: &[u32], p: Part, ranks: &[u16], last: u16) -> u16
    requires { (2048 ≤ length ranks.now) × (p.to ≤ length codes.now) }
    ensures { Adds (ranked_behind ranks.now) p codes.now (λ u. ltb u last) (λ u. ltb u result) }
{
    let mut rank = last;
    for i in p.from..p.to {
        rank = later(ranks, p.skip, code_at(codes, i), rank);
    }
    rank
}
