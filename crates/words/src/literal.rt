// Literals as signed numbers of 32 bits. A magnitude that doesn't fit is clamped to the largest that does, which is no variable's number.
// The lowest number has no negation in 32 bits.
ghost use Rattle.std.specs.Prelude.{◌≡◌};
ghost use Rattle.words.specs.Literals.{literal, minus, variable, kind};

use rows::{NEGATIVE, POSITIVE};

// The literal of a number with this sign and magnitude.
pub fn literal_of(negative: bool, magnitude: usize) -> i32
    ensures { result ≡ literal negative magnitude }
{
    if negative {
        return negated(magnitude);
    }
    i32::try_from(magnitude).unwrap_or(i32::MAX)
}

// The literal with a minus sign and this magnitude.
fn negated(magnitude: usize) -> i32
    ensures { result ≡ minus magnitude }
{
    match i32::try_from(magnitude) {
        Ok(m) => -m,
        Err(_) => i32::MIN,
    }
}

// The variable of a literal. The lowest literal is not negated, since its negation doesn't fit 32 bits.
pub fn variable_of(literal: i32) -> usize
    ensures { result ≡ variable literal }
{
    literal.unsigned_abs() as usize
}

// The kind of a literal's row.
pub fn kind_of(literal: i32) -> u8
    ensures { result ≡ kind literal }
{
    if literal < 0 { NEGATIVE } else { POSITIVE }
}
