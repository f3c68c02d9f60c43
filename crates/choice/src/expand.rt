// The variable that Solve expands next: the innermost-block one with the fewest raw rows, ties to the lower number. The caller has filled
// the tables of occurrences, from which it also takes the chosen variable's literals.
ghost use Rattle.std.specs.Prelude.{◌≡◌, ◌<◌};
ghost use Rattle.subtrees.specs.Ends.{Indexed};
ghost use Rattle.occurrences.specs.Occurrences.{Occurrences};
ghost use Rattle.polarity.specs.Value.{Bound};
ghost use Rattle.choice.specs.Settling.{Unsettled};
ghost use Rattle.choice.specs.Expanding.{ToExpand, beats, cheaper_of, priced_in};

use prefixes::{block_start, bound_at};
use relevance::variable::{Candidate, presence_of, raw_rows_of};
use rows::Layout;

// The variable of prefix row `i` with its relevant subtree and its raw sheet's node rows.
pub fn price_row(
    b: &[u8],
    s: Layout,
    ends: &[u16],
    ranges: &[u16],
    next: &[u16],
    i: usize,
) -> Candidate
    requires { Indexed s b.now ends.now × Bound s b.now × Occurrences s b.now ranges.now next.now × (i < s.variables) }
    ensures { result ≡ priced_in s b.now i }
{
    let x = bound_at(b, s, i);
    let relevant = presence_of(b, s, ends, ranges, next, x);
    let raw = raw_rows_of(s.nodes, relevant);
    Candidate {
        row: i,
        variable: x,
        relevant,
        raw,
    }
}

// Whether `best` has fewer raw rows than `own`, or as many and the lower number.
fn is_cheaper(best: Candidate, own: Candidate) -> bool
    ensures { result ≡ beats best own }
{
    (best.raw, best.variable) < (own.raw, own.variable)
}

// The cheaper of the two.
fn cheaper_of(best: Candidate, own: Candidate) -> Candidate
    ensures { result ≡ cheaper_of best own }
{
    if is_cheaper(best, own) {
        return best;
    }
    own
}

// The innermost-block variable with the fewest raw rows, of a sheet in which no variable may be settled. Every row of its prefix then has a
// literal, so the innermost block is the run of equal kinds at the end of the prefix. It is walked from the last row back to its first.
pub fn choose_expand(b: &[u8], s: Layout, ends: &[u16], ranges: &[u16], next: &[u16]) -> Candidate
    requires { Indexed s b.now ends.now × Bound s b.now × Occurrences s b.now ranges.now next.now × (0 < s.variables) × Unsettled s b.now }
    ensures { ToExpand s b.now result }
{
    let from = block_start(b, s);
    let last = s.variables - 1;
    let mut best = price_row(b, s, ends, ranges, next, last);
    for i in (from..last).rev() {
        best = cheaper_of(best, price_row(b, s, ends, ranges, next, i));
    }
    best
}
