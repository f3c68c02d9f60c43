// What Claim decides of the strategy's sheet before it writes: 26 not a strategy over the first sheet's prefix, 27 a function that reads
// what it may not.
ghost use Rattle.std.specs.Prelude.{◌≡◌, true, suc, ◌<◌, length, take};
ghost use Rattle.formula.specs.StrategyMatrix.{pairs_of};
ghost use Rattle.sheet.specs.Strategy.{equal_prefix};
ghost use Rattle.rows.specs.Formulas.{prefix_in, matrix_in, Readable};
ghost use Rattle.rows.specs.Tables.{ROWS};
ghost use Rattle.prefixes.specs.Places.{binding_in};
ghost use Rattle.checking.specs.Sheets.{Sheet};
ghost use Rattle.reduce.specs.Inner.Places.{Numbered};
ghost use Rattle.pair_tests.specs.Pairs.{is_read, pairs_in, pair_cuts, Paired};
ghost use Rattle.claim.specs.Inner.Plans.{same_row, PairPlans, ClaimPlans};

use pair_tests::cover::covers;
use pair_tests::form::read_pairs;
use pair_tests::levels::find_fault;
use prefixes::{bound_at, is_existential};
use reduce::places::fill_places;
use rows::refusals::Refusal;
use rows::{Layout, NUMBERS, ROWS};
use subtrees::ends::fill_ends;
use subtrees::nodes::children_at;

// Whether row `i` is the same in two prefixes.
fn is_same_row(b: &[u8], s: Layout, d: &[u8], t: Layout, i: usize) -> bool
    requires { Readable s b.now × (i < s.variables) × Readable t d.now × (i < t.variables) }
    ensures { result ≡ same_row (binding_in s b.now i) (binding_in t d.now i) }
{
    if is_existential(b, s, i) != is_existential(d, t, i) {
        return false;
    }
    bound_at(b, s, i) == bound_at(d, t, i)
}

// Whether two sheets have the same prefix.
fn is_same_prefix(b: &[u8], s: Layout, d: &[u8], t: Layout) -> bool
    requires { Readable s b.now × Readable t d.now }
    ensures { result ≡ equal_prefix (prefix_in s b.now) (prefix_in t d.now) }
{
    if s.variables != t.variables {
        return false;
    }
    for i in 0..s.variables {
        if !is_same_row(b, s, d, t, i) {
            return false;
        }
    }
    true
}

// Whether the matrix is one of pairs. If so, the first entries of `cuts` are the node rows at which they begin, and the row behind them.
fn read_form(b: &[u8], s: Layout, cuts: &mut [u16]) -> bool
    requires { Readable s b.now × (length cuts.old ≡ ROWS) }
    ensures value { result ≡ is_read (pairs_of (matrix_in s b.now)) }
    ensures cuts_after { result ≡ true → take (suc (length (pairs_in s b.now))) cuts.new ≡ pair_cuts 1 (pairs_in s b.now) }
{
    let mut ends = [0u16; ROWS];
    fill_ends(b, s, &mut ends);
    read_pairs(b, s, &ends, cuts)
}

// Decides on pairs: 26 they don't cover exactly the side's variables, 27 one reads what it may not; else how many there are.
fn plan_pairs(b: &[u8], s: Layout, exists: bool, cuts: &[u16]) -> Result<usize, Refusal>
    requires { Numbered s b.now × Paired s b.now cuts.now }
    ensures { PairPlans s b.now exists result }
{
    let mut places = [0u16; NUMBERS];
    fill_places(b, s, &mut places);
    if !covers(b, s, exists, &places, cuts) {
        return Err(Refusal::NotAStrategy);
    }
    if let Some(fault) = find_fault(b, s, exists, &places, cuts) {
        return Err(Refusal::ReadsBeyond(s.variables + fault));
    }
    Ok(cuts.len() - 1)
}

// Decides on the sheet `d` of a strategy for the sheet `b`, both of which Check accepts; `cuts` gets the rows of its pairs.
pub fn plan_claim(
    b: &[u8],
    s: Layout,
    d: &[u8],
    t: Layout,
    exists: bool,
    cuts: &mut [u16],
) -> Result<usize, Refusal>
    requires { Sheet s.format b.now s × Sheet s.format d.now t × (length cuts.old ≡ ROWS) }
    ensures { ClaimPlans s.format b.now exists d.now t cuts.new result }
{
    if !is_same_prefix(b, s, d, t) {
        return Err(Refusal::NotAStrategy);
    }
    if !read_form(d, t, cuts) {
        return Err(Refusal::NotAStrategy);
    }
    let n = children_at(d, t, 0);
    plan_pairs(d, t, exists, &cuts[..n + 1])
}
