// The children of the relevant subtree's operator cut into runs without and with chosen literals, by turns, from one walk along the chain.
ghost use Rattle.std.specs.Prelude.{◌≡◌, ◌<◌, length};
ghost use Rattle.relevance.specs.Walks.{Sited, IsCuts, run_cut, table_cut};

use crate::Site;
use crate::subtree::first_behind;
use rows::{Layout, ROWS};
use subtrees::nodes::children_at;

// Entries that are enough for the cuts in a sheet of the wider format.
pub const CUTS: usize = ROWS + 1;

// The cuts so far: how many, and whether the run at hand holds chosen literals.
#[derive(Clone, Copy, PartialEq, Eq, Debug)]
struct Runs {
    cuts: usize,
    holding: bool,
}

// Cuts at row `at`, if what follows holds a literal where the run at hand does not, or the other way round.
fn cut(cuts: &mut [u16], runs: Runs, at: usize, holds: bool) -> Runs
    requires { (runs.cuts < length cuts.old) × (at < 65536) }
    ensures value { result ≡ run_cut holds runs }
    ensures cuts_after { cuts.new ≡ table_cut holds runs at cuts.old }
{
    if holds == runs.holding {
        return runs;
    }
    let k = runs.cuts;
    cuts[k] = at as u16;
    Runs {
        cuts: k + 1,
        holding: holds,
    }
}

// Writes the rows at which the runs of an operator's children begin, and the end, to the front of `cuts`, and returns how many there
// are; the first run holds no chosen literal and may be empty. N + 1 entries are enough; those past the list stay.
pub fn fill_cuts(
    b: &[u8],
    s: Layout,
    ends: &[u16],
    next: &[u16],
    site: Site,
    cuts: &mut [u16],
) -> usize
    requires { Sited s b.now ends.now next.now site × (s.nodes < length cuts.old) }
    ensures { IsCuts s b.now next.now site cuts.old result cuts.new }
{
    let mut at = site.operator + 1;
    let mut row = site.first;
    cuts[0] = at as u16;
    let mut runs = Runs {
        cuts: 1,
        holding: false,
    };
    for _ in 0..children_at(b, s, site.operator) {
        let end = ends[at] as usize;
        runs = cut(cuts, runs, at, row < end);
        row = first_behind(next, row, end);
        at = end;
    }
    let k = runs.cuts;
    cuts[k] = at as u16;
    k + 1
}
