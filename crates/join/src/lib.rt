// Join: the verdict of 2 to the k answers, one for every list of values of the first k variables, by their quantifiers.
#![tactic(auto)]

ghost use Rattle.std.specs.Prelude.{◌≡◌, cond, suc, ◌^◌, ◌≤◌, eqb};
ghost use Rattle.formula.specs.Tree.{and, or};
ghost use Rattle.formula.specs.Join.{weigh};
ghost use Rattle.sheet.specs.Join.{known_of, are_answers, join_call};
ghost use Rattle.sheet.specs.Truthful.{TruthfulJoin};
ghost use Rattle.rows.specs.Formats.{format_of};
ghost use Rattle.rows.specs.Layouts.{format_in};
ghost use Rattle.rows.specs.Formulas.{Readable};
ghost use Rattle.prefixes.specs.Places.{binding_in};
ghost use Rattle.checking.specs.Sheets.{Sheet};
ghost use Rattle.join.specs.Answers.{known_in, join_answer};
ghost use Rattle.join.specs.Inner.{Joinable, joined_from};

use prefixes::is_existential;
use rows::refusals::Refusal;
use rows::{Format, Layout};

// Whether every byte is 0, 1 or 2.
fn are_answers(answers: &[u8]) -> bool
    ensures { result ≡ are_answers answers.now }
{
    answers.iter().all(|a| *a <= 2)
}

// Whether n is 2 to the power k.
fn is_power(n: usize, k: usize) -> bool
    ensures { result ≡ eqb n (2 ^ k) }
{
    let mut left = n;
    for _ in 0..k {
        if left % 2 == 1 {
            return false;
        }
        left /= 2;
    }
    left == 1
}

// Two answers weighed by the quantifier that ends a split at `stop`, exists at true and for all at false: that one ends it whatever the
// other says, else both must be known.
fn weigh_towards(stop: bool, a: Option<bool>, b: Option<bool>) -> Option<bool>
    ensures { known_in result ≡ weigh (cond stop or and) (known_in a) (known_in b) }
{
    match (a, b) {
        (Some(x), Some(y)) => Some(if stop { x || y } else { x && y }),
        (Some(x), None) => if x == stop { Some(x) } else { None },
        (None, Some(y)) => if y == stop { Some(y) } else { None },
        (None, None) => None,
    }
}

// A byte as what is known of a truth.
fn known_from(a: u8) -> Option<bool>
    ensures { known_in result ≡ known_of a }
{
    if a == 2 {
        return None;
    }
    Some(a == 1)
}

// Joins the answers for the values of rows `i` to `k` of the prefix: those for value 0 of row `i`, then those for value 1.
fn gather(b: &[u8], s: Layout, answers: &[u8], i: usize, k: usize) -> Option<bool>
    requires { Joinable s b.now answers.now i k }
    ensures { known_in result ≡ joined_from s b.now answers.now i k }
{
    if i == k {
        return known_from(answers[0]);
    }
    let half = answers.len() / 2;
    let zero = gather(b, s, &answers[..half], i + 1, k);
    let one = gather(b, s, &answers[half..], i + 1, k);
    weigh_towards(is_existential(b, s, i), zero, one)
}

// Joins for a sheet that Check accepts, of this layout: 22 k above V, 28 not 2 to the k answers, 29 an answer isn't 0, 1 or 2.
fn join_checked(b: &[u8], s: Layout, k: usize, answers: &[u8]) -> Result<Option<bool>, Refusal>
    requires { Sheet s.format b.now s }
    ensures { join_answer result ≡ join_call (format_in s) b.now k answers.now }
{
    if s.variables < k {
        return Err(Refusal::TooManyValues);
    }
    if !is_power(answers.len(), k) {
        return Err(Refusal::WrongAnswers);
    }
    if !are_answers(answers) {
        return Err(Refusal::BadAnswer);
    }
    Ok(gather(b, s, answers, 0, k))
}

// Answers for a sheet with the verdict of 2 to the k answers (a byte each: 0 false, 1 true, 2 unknown), in the order of the values of its
// first k variables, those of the first one first.
pub fn join(sheet: &[u8], f: Format, k: usize, answers: &[u8]) -> Result<Option<bool>, Refusal>
    ensures result_value { join_answer result ≡ join_call (format_of f) sheet.now k answers.now }
    ensures truthful_join { TruthfulJoin (format_of f) sheet.now k answers.now (join_answer result) }
{
    let s = checking::check(sheet, f)?;
    join_checked(sheet, s, k, answers)
}
