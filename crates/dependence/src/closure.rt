// The depending variables. A set grows until every member of the block that is found is also taken, or until the whole block is found. Each
// member costs at most one walk over the rows of its relevant subtree; no pair of variables is looked at.
ghost use Rattle.std.specs.Prelude.{◌≡◌, ◌*◌, ◌≤◌, length, replicate};
ghost use Rattle.rows.specs.Formulas.{formula_in};
ghost use Rattle.rows.specs.Tables.{HIGHEST, NUMBERS};
ghost use Rattle.subtrees.specs.Ends.{Indexed};
ghost use Rattle.occurrences.specs.Occurrences.{Occurrences};
ghost use Rattle.dependence.specs.Blocks.{Located};
ghost use Rattle.dependence.specs.Dependents.{range_at, IsNext, Dependents};

use crate::Target;
use crate::block::fill_block;
use crate::mark::mark_relevant;
use occurrences::occurs;
use relevance::Range;
use rows::NUMBERS;
use sets::{WORDS, add, intersect, lowest_left};

// The rows of the first and the last literal of the variable `y`, if it has one.
fn range_of(ranges: &[u16], y: usize) -> Range
    requires { (length ranges.now ≡ 2 * NUMBERS) × (y ≤ HIGHEST) }
    ensures { result ≡ range_at ranges.now y }
{
    Range {
        first: usize::from(ranges[2 * y]),
        last: usize::from(ranges[2 * y + 1]),
    }
}

// The lowest number of the block that is found and not yet taken, if there is one. There is none either if the whole block is found: taking
// more members would find nothing new.
fn next_member(block: &[u64], found: &[u64], taken: &[u64]) -> Option<usize>
    requires { (length block.now ≡ 17) × (length found.now ≡ 17) × (length taken.now ≡ 17) }
    ensures { IsNext block.now found.now taken.now result }
{
    if NUMBERS <= lowest_left(block, block, found) {
        return None;
    }
    let v = lowest_left(block, found, taken);
    if v < NUMBERS { Some(v) } else { None }
}

// Fills an empty set with the variables that depend on a variable. `found` contains all variables with a literal in the relevant subtree of
// the variable itself or of a member that is taken. `set` contains the members taken, and in the end all members of the block that are
// found.
pub fn fill_dependents(
    b: &[u8],
    t: Target,
    ends: &[u16],
    ranges: &[u16],
    next: &[u16],
    set: &mut [u64],
)
    requires { Indexed t.layout b.now ends.now × Occurrences t.layout b.now ranges.now next.now × Located t.layout b.now t × (set.old ≡ replicate 17 0) }
    ensures { Dependents t.variable (formula_in t.layout b.now) set.new }
{
    let s = t.layout;
    if !occurs(s, ranges, t.variable) {
        return;
    }
    let mut block = [0u64; WORDS];
    fill_block(b, ranges, t, &mut block);
    let mut found = [0u64; WORDS];
    mark_relevant(b, s, ends, next, range_of(ranges, t.variable), &mut found);
    while let Some(y) = next_member(&block, &found, set) {
        add(set, y);
        mark_relevant(b, s, ends, next, range_of(ranges, y), &mut found);
    }
    intersect(&block, &found, set);
}
