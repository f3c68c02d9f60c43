// Whether the pairs cover exactly the variables of a side, each once.
ghost use Rattle.std.specs.Prelude.{◌≡◌, true, false, not, ◌&&◌, ◌||◌, [], ◌<◌, length, get_or};
ghost use Rattle.formula.specs.Tree.{same_op};
ghost use Rattle.formula.specs.Strategy.{owns, once, owned_all, set_all, is_covering};
ghost use Rattle.rows.specs.Formulas.{prefix_in};
ghost use Rattle.rows.specs.Tables.{NUMBERS};
ghost use Rattle.prefixes.specs.Places.{binding_in};
ghost use Rattle.reduce.specs.Inner.Places.{Numbered, Placed, variable_of, Bound};
ghost use Rattle.pair_tests.specs.Pairs.{side, pairs_in, Paired, Marked};

use prefixes::{bound_at, is_existential};
use reduce::places::place_at;
use rows::read::argument_at;
use rows::{Layout, NUMBERS};

// Whether the variable of the literal at row `r` is of the side.
fn is_own(b: &[u8], s: Layout, exists: bool, places: &[u16], r: usize) -> bool
    requires { Placed s b.now places.now × Bound s b.now r }
    ensures { result ≡ owns (side exists) (prefix_in s b.now) (variable_of s b.now r) }
{
    is_existential(b, s, place_at(b, s, places, r)) == exists
}

// Marks the variables of the pairs, from the last to the first, and returns whether each is of the side and none is met twice.
fn mark_pairs(
    b: &[u8],
    s: Layout,
    exists: bool,
    places: &[u16],
    cuts: &[u16],
    seen: &mut [bool],
) -> bool
    requires { Placed s b.now places.now × Paired s b.now cuts.now × Marked seen.old [] × (length seen.old ≡ NUMBERS) }
    ensures value { result ≡ (owned_all (side exists) (prefix_in s b.now) (pairs_in s b.now) && once (pairs_in s b.now)) }
    ensures marked { result ≡ true → Marked seen.new (pairs_in s b.now) }
{
    for j in (0..cuts.len() - 1).rev() {
        let r = s.variables + cuts[j] as usize + 1;
        let x = argument_at(b, s, r);
        if !is_own(b, s, exists, places, r) || seen[x] {
            return false;
        }
        seen[x] = true;
    }
    true
}

// Whether prefix row `i` is of the side and has no pair.
fn is_missing(b: &[u8], s: Layout, exists: bool, seen: &[bool], i: usize) -> bool
    requires { Numbered s b.now × (length seen.now ≡ NUMBERS) × (i < s.variables) }
    ensures { not result ≡ (not (same_op (side exists) (binding_in s b.now i).quantifier) || get_or seen.now (binding_in s b.now i).variable false) }
{
    is_existential(b, s, i) == exists && !seen[bound_at(b, s, i)]
}

// Whether each row of the side has a pair.
fn are_marked(b: &[u8], s: Layout, exists: bool, seen: &[bool]) -> bool
    requires { Numbered s b.now × (length seen.now ≡ NUMBERS) × Marked seen.now (pairs_in s b.now) }
    ensures { result ≡ set_all (side exists) (pairs_in s b.now) (prefix_in s b.now) }
{
    for i in 0..s.variables {
        if is_missing(b, s, exists, seen, i) {
            return false;
        }
    }
    true
}

// Whether exactly the variables of the side have a pair, each of them one.
pub fn covers(b: &[u8], s: Layout, exists: bool, places: &[u16], cuts: &[u16]) -> bool
    requires { Placed s b.now places.now × Paired s b.now cuts.now }
    ensures { result ≡ is_covering (side exists) (prefix_in s b.now) (pairs_in s b.now) }
{
    let mut seen = [false; NUMBERS];
    mark_pairs(b, s, exists, places, cuts, &mut seen) && are_marked(b, s, exists, &seen)
}
