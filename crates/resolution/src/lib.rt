// Derivations on words: whether each derived step of a certificate follows from the two steps that it names, in a few walks over the codes of
// the three constraints.
#![tactic(auto)]

ghost use Rattle.std.specs.Prelude.{◌≡◌, ◌+◌, ◌*◌, ◌≤◌, ◌<◌, length};
ghost use Rattle.formula.specs.Tree.{Op, Prefix};
ghost use Rattle.resolution.specs.Ranks.{Ranks};
ghost use Rattle.resolution.specs.Steps.{follows_named, derived_at, Told, FirstUnderived};

use crate::following::follows;
use crate::words::{CODES, complement, head_word, part_of};

pub mod following;
pub mod marks;
pub mod words;

// Whether step `k` follows, by the pivot of the code `c`, from the two steps that it names, which are earlier ones.
fn follows_by(heads: &[u32], codes: &[u32], own: &[u16], other: &[u16], k: usize, c: usize) -> bool
    requires { (4 * k + 4 ≤ length heads.now) × (c < 4096) × (2048 ≤ length own.now) × (2048 ≤ length other.now) }
    ensures { Told (λ o p. follows_named o p heads.now codes.now k c) own.now other.now result }
{
    let m = head_word(heads, k, 1);
    let n = head_word(heads, k, 2);
    if k <= m || k <= n {
        return false;
    }
    let a = part_of(heads, codes, m, c);
    let b = part_of(heads, codes, n, complement(c));
    let d = part_of(heads, codes, k, CODES);
    follows(codes, own, other, a, b, d)
}

// Whether step `k` follows, or is an initial one, which is for another test.
fn is_derived(heads: &[u32], codes: &[u32], own: &[u16], other: &[u16], k: usize) -> bool
    requires { (4 * k + 4 ≤ length heads.now) × (2048 ≤ length own.now) × (2048 ≤ length other.now) }
    ensures { Told (λ o p. derived_at o p heads.now codes.now k) own.now other.now result }
{
    let w = head_word(heads, k, 0);
    w == 0 || follows_by(heads, codes, own, other, k, (w - 1) % CODES)
}

// The first derived step that doesn't follow, or the number of steps.
pub fn first_underived(heads: &[u32], codes: &[u32], own: &[u16], other: &[u16]) -> usize
    requires { (2048 ≤ length own.now) × (2048 ≤ length other.now) }
    ensures { (o : Op) (p : Prefix) → Ranks o p own.now other.now
        → FirstUnderived o p heads.now codes.now result }
{
    let steps = heads.len() / 4;
    for k in 0..steps {
        if !is_derived(heads, codes, own, other, k) {
            return k;
        }
    }
    steps
}
