// The clauses: whole numbers, and 0 ends each.
ghost use Rattle.std.specs.Prelude.{◌≡◌, not, ◌≤◌, ◌<◌, ltb, length};
ghost use Rattle.sheet.specs.Qdimacs.{all};
ghost use Rattle.sheet.specs.Texts.{up_to};
ghost use Rattle.rows.specs.Tables.{HIGHEST};
ghost use Rattle.words.specs.Numbers.{largest};
ghost use Rattle.words.specs.Literals.{variable};
ghost use Rattle.qdimacs.specs.Inner.Lists.{first_length};
ghost use Rattle.qdimacs.specs.Inner.Cursor.{tokens_at};
ghost use Rattle.qdimacs.specs.Inner.Clauses.{count_step, Counts, literal_said, says_above};

use rows::NUMBERS;
use words::literal::{literal_of, variable_of};
use words::token::{NEGATIVE, NONE, Token, ZERO, next_token};

// What is known of the clauses: whether all words are whole numbers, whether the last clause is still open, how many clauses are ended, and
// how many words there are, the zeros that end clauses among them.
#[derive(Clone, Copy)]
pub struct Clauses {
    pub whole: bool,
    pub ongoing: bool,
    pub count: usize,
    pub words: usize,
}

// The same with one word more.
fn count_word(c: Clauses, class: u8) -> Clauses
    requires { (c.count < largest) × (c.words < largest) }
    ensures { result ≡ count_step c class }
{
    if class == NONE {
        return c;
    }
    let words = c.words + 1;
    if class == ZERO {
        return Clauses {
            ongoing: false,
            count: c.count + 1,
            words,
            ..c
        };
    }
    Clauses {
        whole: c.whole && ZERO < class,
        ongoing: true,
        words,
        ..c
    }
}

// Counts the clauses from `from` on, and their words.
pub fn count_clauses(b: &[u8], from: usize) -> Clauses
    requires { from ≤ length b.now }
    ensures { Counts b.now from result }
{
    let mut c = Clauses {
        whole: true,
        ongoing: false,
        count: 0,
        words: 0,
    };
    let mut at = from;
    while at < b.len() {
        let t = next_token(b, at);
        c = count_word(c, t.class);
        at = t.to;
    }
    c
}

// The literal that a number is.
pub fn literal_said(t: Token) -> i32
    ensures { result ≡ literal_said t }
{
    literal_of(t.class == NEGATIVE, t.magnitude)
}

// Whether a literal's variable is above `most`.
fn is_above(literal: i32, most: usize) -> bool
    ensures { result ≡ ltb most (variable literal) }
{
    most < variable_of(literal)
}

// Whether a word is a number above `most`.
fn says_above(t: Token, most: usize) -> bool
    ensures { result ≡ says_above most t }
{
    ZERO <= t.class && is_above(literal_said(t), most)
}

// Whether a number, of quantifier lines or of clauses, is above `most`.
pub fn has_above(b: &[u8], most: usize) -> bool
    requires { most ≤ HIGHEST }
    ensures { result ≡ not (all (up_to most) (tokens_at b.now 0)) }
{
    let mut at: usize = 0;
    while at < b.len() {
        let t = next_token(b, at);
        if says_above(t, most) {
            return true;
        }
        at = t.to;
    }
    false
}
