// Whether a constraint follows from two others by a pivot: every code of the others that is kept is among its own or may go.
ghost use Rattle.std.specs.Prelude.{◌≡◌, not, ◌&&◌, ◌≤◌, ◌<◌, eqb, ltb, length};
ghost use Rattle.sets.specs.Sets.{holds};
ghost use Rattle.resolution.specs.Codes.{kept, some_in, Gathers, Wide, ranked_behind, uncovered, Covering};
ghost use Rattle.resolution.specs.Steps.{Told, Triple, follows_in};

use crate::marks::{last_rank, mark};
use crate::words::{MARKS, Part, code_at, complement};

// Whether a code is among the derived ones, or may go: its variable is of the other quantifier, no rank of the side's own is behind it, and
// its complement is nowhere.
#[tactic(auto, unfolding(crate::specs::Codes::uncovered))]
fn is_covered(other: &[u16], derived: &[u64], all: &[u64], last: u16, c: usize) -> bool
    requires { Covering other.now derived.now all.now × (c < 4096) }
    ensures { not result ≡ uncovered other.now derived.now all.now last c }
{
    if sets::holds(derived, c) {
        return true;
    }
    let rank = other[c / 2];
    rank != 0 && last <= rank && !sets::holds(all, complement(c))
}

// The same of a code that may be left out.
fn passes(other: &[u16], derived: &[u64], all: &[u64], last: u16, skip: usize, c: usize) -> bool
    requires { Covering other.now derived.now all.now × (c < 4096) }
    ensures { not result ≡ kept skip (uncovered other.now derived.now all.now last) c }
{
    skip == c || is_covered(other, derived, all, last, c)
}

// Whether all codes of a part that are kept pass.
fn covers(codes: &[u32], p: Part, other: &[u16], derived: &[u64], all: &[u64], last: u16) -> bool
    requires { Covering other.now derived.now all.now × (p.to ≤ length codes.now) }
    ensures { not result ≡ some_in p codes.now (uncovered other.now derived.now all.now last) }
{
    for i in p.from..p.to {
        if !passes(other, derived, all, last, p.skip, code_at(codes, i)) {
            return false;
        }
    }
    true
}

// Puts the codes of three parts into the set.
fn mark_all(codes: &[u32], a: Part, b: Part, d: Part, set: &mut [u64])
    requires { Triple a b d (length codes.now) × Wide set.old }
    ensures set_len_unchanged { length set.new ≡ length set.old }
    ensures gathers { Gathers eqb a b d codes.now (holds set.old) (holds set.new) }
{
    mark(codes, d, set);
    mark(codes, a, set);
    mark(codes, b, set);
}

// The last rank among the codes of three parts, or 0.
fn last_of(codes: &[u32], own: &[u16], a: Part, b: Part, d: Part) -> u16
    requires { Triple a b d (length codes.now) × (2048 ≤ length own.now) }
    ensures { Gathers (ranked_behind own.now) a b d codes.now (λ u. ltb u 0) (λ u. ltb u result) }
{
    let of_d = last_rank(codes, d, own, 0);
    let of_a = last_rank(codes, a, own, of_d);
    last_rank(codes, b, own, of_a)
}

// Whether the constraint of the part `d` follows from those of `a` and `b`, which leave out the pivot and its complement.
pub fn follows(codes: &[u32], own: &[u16], other: &[u16], a: Part, b: Part, d: Part) -> bool
    requires { Triple a b d (length codes.now) × (2048 ≤ length own.now) × (2048 ≤ length other.now) }
    ensures { Told (follows_in a b d codes.now) own.now other.now result }
{
    let mut derived = [0u64; MARKS];
    let mut all = [0u64; MARKS];
    mark(codes, d, &mut derived);
    mark_all(codes, a, b, d, &mut all);
    let last = last_of(codes, own, a, b, d);
    covers(codes, a, other, &derived, &all, last) && covers(codes, b, other, &derived, &all, last)
}
