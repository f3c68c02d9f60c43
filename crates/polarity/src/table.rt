// The table of signs, four entries to a variable number: a positive literal, a negative one, a positive unit literal, a negative one.
ghost use Rattle.std.specs.Prelude.{◌≡◌, not, ◌&&◌, ◌||◌, ◌+◌, ◌-◌, ◌^◌, ◌≤◌, ◌<◌, length};
ghost use Rattle.formula.specs.Tree.{of_sign, count};
ghost use Rattle.formula.specs.Settle.{is_lit};
ghost use Rattle.rows.specs.Formulas.{Readable};
ghost use Rattle.subtrees.specs.Subtrees.{kids, subtree_in};
ghost use Rattle.polarity.specs.Table.{entry_of, last_entry, Unmarked, Marked, Covers, Signed};

use rows::{Layout, NEGATIVE, NUMBERS, POSITIVE};
use subtrees::nodes::{argument_at, kind_at};

// Entries of the table for all numbers, and of a smaller one, sooner made: for numbers up to 256, the narrow format's most.
pub const SIGNS: usize = 4 * NUMBERS;

pub const FEW_NUMBERS: usize = 257;

pub const FEW_SIGNS: usize = 4 * FEW_NUMBERS;

// The entry of the variable `x` for its literals of one sign: for unit literals, or for literals anywhere.
pub fn entry(x: usize, unit: bool, positive: bool) -> usize
    requires { last_entry x < 2 ^ 64 }
    ensures { (result ≡ entry_of unit positive x) × (result ≤ last_entry x) }
{
    let negative = !positive;
    4 * x + 2 * (unit as usize) + negative as usize
}

// Marks a literal of the variable `x`, if the table has its number: as a literal anywhere, and as a unit literal if it is one.
fn mark(signs: &mut [bool], x: usize, positive: bool, unit: bool)
    requires { x < 2 ^ 32 }
    ensures { Marked signs.old signs.new (λ u p y. (not u || unit) && of_sign p y positive x) }
{
    if signs.len() <= entry(x, true, false) {
        return;
    }
    signs[entry(x, false, positive)] = true;
    signs[entry(x, unit, positive)] = true;
}

// Marks the literal of node row `i`, if it is one, and returns how many children the row has.
fn mark_row(b: &[u8], s: Layout, i: usize, unit: bool, signs: &mut [bool]) -> usize
    requires { Readable s b.now × (i < s.nodes) }
    ensures marked { Marked signs.old signs.new (λ u p x. (not u || unit) && is_lit (of_sign p x) (subtree_in s b.now i)) }
    ensures value { result ≡ count (kids (subtree_in s b.now i)) }
{
    let kind = kind_at(b, s, i);
    let argument = argument_at(b, s, i);
    if NEGATIVE < kind {
        return argument;
    }
    mark(signs, argument, kind == POSITIVE, unit);
    0
}

// Fills the table, in which no sign is marked yet. One pass is enough: in preorder a child of the root begins where nothing is owed for the
// one before. A literal there is a unit literal, and so is a root that is a literal. Of what is owed, a row pays for one subtree and adds its
// children; where nothing is owed, it begins a child of the root, and only its own children are owed.
pub fn fill_signs(b: &[u8], s: Layout, signs: &mut [bool])
    requires { Readable s b.now × Unmarked signs.old × Covers s b.now (length signs.old) }
    ensures { Signed s b.now signs.new }
{
    mark_row(b, s, 0, true, signs);
    let mut left: usize = 0;
    for i in 1..s.nodes {
        let children = mark_row(b, s, i, left == 0, signs);
        left = left.saturating_sub(1) + children;
    }
}
