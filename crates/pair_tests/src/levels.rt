// Whether a pair reads what it may not, by one number for each variable: the place of the last row of the other side that it depends on.
ghost use Rattle.std.specs.Prelude.{◌≡◌, ℕ, ◌<◌, length, get_or, SomeIff};
ghost use Rattle.std.proofs.Math.Seq.{slice};
ghost use Rattle.rows.specs.Layouts.{rows_in};
ghost use Rattle.rows.specs.Formulas.{prefix_in};
ghost use Rattle.rows.specs.Tables.{NUMBERS};
ghost use Rattle.reduce.specs.Inner.Places.{Placed, row_of};
ghost use Rattle.pair_tests.specs.Pairs.{side, pairs_in, Paired};
ghost use Rattle.pair_tests.specs.Levels.{level_by, row_level, deepest_row, Standing, Function, fault_in};

use prefixes::is_existential;
use reduce::places::place_at;
use rows::read::{argument_at, kind_at};
use rows::{Layout, NEGATIVE, NUMBERS};
use substitution::Span;

// The level of the literal at row `r`, and 0 of an operator.
fn row_level(b: &[u8], s: Layout, exists: bool, places: &[u16], levels: &[u16], r: usize) -> usize
    requires { Placed s b.now places.now × Standing s b.now r × (length levels.now ≡ NUMBERS) }
    ensures { result ≡ row_level (level_by (side exists) (prefix_in s b.now) levels.now) (row_of s b.now r) }
{
    if NEGATIVE < kind_at(b, s, r) {
        return 0;
    }
    if let Some(level) = usize::from(levels[argument_at(b, s, r)]).checked_sub(1) {
        return level;
    }
    let i = place_at(b, s, places, r);
    if is_existential(b, s, i) == exists {
        return s.variables + 1;
    }
    i + 1
}

// The largest level of the literals in the rows `span`.
fn deepest_in(
    b: &[u8],
    s: Layout,
    exists: bool,
    places: &[u16],
    levels: &[u16],
    span: Span,
) -> usize
    requires { Placed s b.now places.now × Function s b.now span × (length levels.now ≡ NUMBERS) }
    ensures { result ≡ deepest_row (level_by (side exists) (prefix_in s b.now) levels.now) (slice span.from span.to (rows_in s b.now)) }
{
    let mut deepest: usize = 0;
    for r in (span.from..span.to).rev() {
        deepest = deepest.max(row_level(b, s, exists, places, levels, r));
    }
    deepest
}

// The node row of the last pair that reads what it may not, if there is one. `levels` holds zeros at first.
fn fault_by(
    b: &[u8],
    s: Layout,
    exists: bool,
    places: &[u16],
    cuts: &[u16],
    levels: &mut [u16],
) -> Option<usize>
    requires { Placed s b.now places.now × Paired s b.now cuts.now × ((x : ℕ) → get_or levels.old x 0 ≡ 0) × (length levels.old ≡ NUMBERS) }
    ensures { SomeIff result (0 < fault_in (side exists) (prefix_in s b.now) (pairs_in s b.now)) (fault_in (side exists) (prefix_in s b.now) (pairs_in s b.now)) }
{
    let v = s.variables;
    for j in (0..cuts.len() - 1).rev() {
        let at = cuts[j] as usize;
        let function = Span {
            from: v + at + 2,
            to: v + cuts[j + 1] as usize,
        };
        let level = deepest_in(b, s, exists, places, levels, function);
        let literal = v + at + 1;
        let place = place_at(b, s, places, literal);
        if place < level {
            return Some(at);
        }
        levels[argument_at(b, s, literal)] = (level + 1) as u16;
    }
    None
}

// The node row of the last pair that reads what it may not, if there is one.
pub fn find_fault(b: &[u8], s: Layout, exists: bool, places: &[u16], cuts: &[u16]) -> Option<usize>
    requires { Placed s b.now places.now × Paired s b.now cuts.now }
    ensures { SomeIff result (0 < fault_in (side exists) (prefix_in s b.now) (pairs_in s b.now)) (fault_in (side exists) (prefix_in s b.now) (pairs_in s b.now)) }
{
    let mut levels = [0u16; NUMBERS];
    fault_by(b, s, exists, places, cuts, &mut levels)
}
