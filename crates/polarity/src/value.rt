// The value that settling puts in for a variable, by its quantifier and its signs.
ghost use Rattle.std.specs.Prelude.{◌≡◌, ◌<◌, length};
ghost use Rattle.formula.specs.Settle.{value};
ghost use Rattle.rows.specs.Formulas.{Readable};
ghost use Rattle.polarity.specs.Table.{last_entry, Signed};
ghost use Rattle.polarity.specs.Value.{quantifier_at, value_of, signs_in, settling_by, settling_in};

use crate::table::entry;
use prefixes::{bound_at, is_existential};
use rows::Layout;

// The value put in, by quantifier (exists, for all) and sign (positive, negative).
const VALUE: [[bool; 2]; 2] = [[true, false], [false, true]];

// Which signs a variable's literals have, and which its unit literals.
#[derive(Clone, Copy, PartialEq, Eq, Debug)]
pub struct Signs {
    pub positive: bool,
    pub negative: bool,
    pub positive_unit: bool,
    pub negative_unit: bool,
}

// The value that the table has for a quantifier and a sign.
fn table_value(existential: bool, positive: bool) -> bool
    ensures { result ≡ value (quantifier_at existential) positive }
{
    VALUE[usize::from(!existential)][usize::from(!positive)]
}

// The value for a quantifier and the signs of a variable's literals. A sign gives it if all literals have that sign or a unit literal has
// it; without literals it is 0.
pub fn settling_by(existential: bool, signs: Signs) -> Option<bool>
    ensures { value_of result ≡ settling_by (quantifier_at existential) signs }
{
    if !(signs.positive | signs.negative) {
        return Some(false);
    }
    if !signs.negative | signs.positive_unit {
        return Some(table_value(existential, true));
    }
    if !signs.positive | signs.negative_unit {
        return Some(table_value(existential, false));
    }
    None
}

// The signs of the variable `x`, which the table has.
fn signs_at(signs: &[bool], x: usize) -> Signs
    requires { last_entry x < length signs.now }
    ensures { result ≡ signs_in signs.now x }
{
    Signs {
        positive: signs[entry(x, false, true)],
        negative: signs[entry(x, false, false)],
        positive_unit: signs[entry(x, true, true)],
        negative_unit: signs[entry(x, true, false)],
    }
}

// The value for the variable of prefix row `i`, if it may be settled.
pub fn value_at(b: &[u8], s: Layout, i: usize, signs: &[bool]) -> Option<bool>
    requires { Readable s b.now × (i < s.variables) × Signed s b.now signs.now }
    ensures { value_of result ≡ settling_in s b.now i }
{
    let x = bound_at(b, s, i);
    settling_by(is_existential(b, s, i), signs_at(signs, x))
}
