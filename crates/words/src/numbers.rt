// Numbers in digits.
ghost use Rattle.std.specs.Prelude.{◌≡◌, true, ◌+◌, ◌*◌, ◌-◌, ◌≤◌};
ghost use Rattle.sheet.specs.Qdimacs.{digit, all, number_from};
ghost use Rattle.words.specs.Numbers.{Capped, largest};

// 0 to 9.
fn is_digit(c: u8) -> bool
    ensures { result ≡ digit c }
{
    c.is_ascii_digit()
}

// Whether all bytes of a word are digits.
pub fn all_digits(word: &[u8]) -> bool
    ensures { result ≡ all digit word.now }
{
    for c in word {
        if !is_digit(*c) {
            return false;
        }
    }
    true
}

// A number with one more digit; a number too large for 64 bits is the largest one.
fn with_digit(value: usize, c: u8) -> usize
    requires { digit c ≡ true }
    ensures { Capped largest (10 * value + (c - 48)) result × (result ≤ largest) }
{
    value
        .saturating_mul(10)
        .saturating_add(usize::from(c - b'0'))
}

// The number that a word of digits is.
pub fn number_of(word: &[u8]) -> usize
    requires { all digit word.now ≡ true }
    ensures { Capped largest (number_from 0 word.now) result }
{
    let mut value: usize = 0;
    for c in word {
        value = with_digit(value, *c);
    }
    value
}
