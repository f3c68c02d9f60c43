// The variable that Solve settles next: the lowest-numbered one that may be settled.
ghost use Rattle.std.specs.Prelude.{◌≡◌, suc, ◌^◌, ◌<◌};
ghost use Rattle.rows.specs.Formulas.{Readable};
ghost use Rattle.polarity.specs.Table.{Covers, Signed};
ghost use Rattle.polarity.specs.Value.{NumberedTo, Bound};
ghost use Rattle.choice.specs.Settling.{ToSettle, SettlesBefore, is_lower};

use polarity::table::{FEW_NUMBERS, FEW_SIGNS, SIGNS, fill_signs};
use polarity::value::value_at;
use prefixes::bound_at;
use rows::Layout;

// The variable to settle: its prefix row, its number and the value that goes in.
#[derive(Clone, Copy, PartialEq, Eq, Debug)]
pub struct SettleChoice {
    pub row: usize,
    pub variable: usize,
    pub value: bool,
}

// Whether the choice so far has a number below `x`. Then `x` is not the lowest, whether or not it may be settled.
fn is_lower(best: Option<SettleChoice>, x: usize) -> bool
    ensures { result ≡ is_lower best x }
{
    best.is_some_and(|choice| choice.variable < x)
}

// The choice among the prefix rows up to row `i`, where `best` is the choice among those before it.
fn choose_to(
    b: &[u8],
    s: Layout,
    signs: &[bool],
    i: usize,
    best: Option<SettleChoice>,
) -> Option<SettleChoice>
    requires readable { Readable s b.now × Bound s b.now × Signed s b.now signs.now × (i < s.variables) }
    requires settles_before { SettlesBefore i s b.now best }
    ensures { SettlesBefore (suc i) s b.now result }
{
    let x = bound_at(b, s, i);
    if is_lower(best, x) {
        return best;
    }
    let Some(value) = value_at(b, s, i, signs) else {
        return best;
    };
    Some(SettleChoice {
        row: i,
        variable: x,
        value,
    })
}

// The choice among all prefix rows.
fn choose_by(b: &[u8], s: Layout, signs: &[bool]) -> Option<SettleChoice>
    requires { Readable s b.now × Bound s b.now × Signed s b.now signs.now }
    ensures { ToSettle s b.now result }
{
    let mut best = None;
    for i in 0..s.variables {
        best = choose_to(b, s, signs, i, best);
    }
    best
}

// The same by a table of signs with so many entries, enough for every number of the prefix.
fn choose_within<const ENTRIES: usize>(b: &[u8], s: Layout) -> Option<SettleChoice>
    requires { Readable s b.now × Bound s b.now × Covers s b.now ENTRIES × (ENTRIES < 2 ^ 63) }
    ensures { ToSettle s b.now result }
{
    let mut signs = [false; ENTRIES];
    fill_signs(b, s, &mut signs);
    choose_by(b, s, &signs)
}

// The lowest-numbered variable that may be settled. No number of the prefix is above `most`; if `most` is small, the smaller table of signs
// is enough.
pub fn choose_settle(b: &[u8], s: Layout, most: usize) -> Option<SettleChoice>
    requires { Readable s b.now × Bound s b.now × NumberedTo most s b.now }
    ensures { ToSettle s b.now result }
{
    if most < FEW_NUMBERS {
        return choose_within::<FEW_SIGNS>(b, s);
    }
    choose_within::<SIGNS>(b, s)
}
