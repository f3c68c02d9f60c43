// What a word is: a name of the format, or a number and its sign.
ghost use Rattle.std.specs.Prelude.{◌≡◌, true, [], ◌∷◌, ◌≤◌, ◌<◌, length};
ghost use Rattle.sheet.specs.Qdimacs.{digit, all};
ghost use Rattle.words.specs.Tokens.{name_of, Plain, Negated, Says, Reads};

use crate::cursor::{end_of, skip_white};
use crate::numbers::{all_digits, number_of};

// Classes of words: none, any other, e, a, p, cnf, the number 0, another without sign, one with a minus sign.
pub const NONE: u8 = 0;

pub const OTHER: u8 = 1;

pub const EXISTS: u8 = 2;

pub const FOR_ALL: u8 = 3;

pub const P: u8 = 4;

pub const CNF: u8 = 5;

pub const ZERO: u8 = 6;

pub const POSITIVE: u8 = 7;

pub const NEGATIVE: u8 = 8;

// A word's class, its magnitude if it is a number (the largest of 64 bits if it is larger), and where it ends.
#[derive(Clone, Copy, PartialEq, Eq, Debug)]
pub struct Token {
    pub class: u8,
    pub magnitude: usize,
    pub to: usize,
}

// A word of no number: its magnitude is not looked at.
fn unnumbered(class: u8, to: usize) -> Token
    ensures { result ≡ record { class = class; magnitude = 0; to = to } }
{
    Token {
        class,
        magnitude: 0,
        to,
    }
}

// The class of a word that is one byte.
fn letter(c: u8) -> u8
    ensures { result ≡ name_of (c ∷ []) }
{
    match c {
        b'e' => EXISTS,
        b'a' => FOR_ALL,
        b'p' => P,
        _ => OTHER,
    }
}

// The class of a word that is three bytes.
fn three_letters(c: u8, d: u8, e: u8) -> u8
    ensures { result ≡ name_of (c ∷ d ∷ e ∷ []) }
{
    if c == b'c' && d == b'n' && e == b'f' {
        CNF
    } else {
        OTHER
    }
}

// The class of a word as a name of the format.
fn name_of(word: &[u8]) -> u8
    ensures { result ≡ name_of word.now }
{
    match word {
        [c] => letter(*c),
        [c, d, e] => three_letters(*c, *d, *e),
        _ => OTHER,
    }
}

// Reads a word of digits, which ends at `to`.
fn plain(word: &[u8], to: usize) -> Token
    requires { all digit word.now ≡ true }
    ensures { Plain word.now result × (result.to ≡ to) }
{
    let magnitude = number_of(word);
    let class = if magnitude == 0 { ZERO } else { POSITIVE };
    Token {
        class,
        magnitude,
        to,
    }
}

// Reads what is behind a minus sign: a number, unless it is 0.
fn negated(word: &[u8], to: usize) -> Token
    ensures { Negated word.now result × (result.to ≡ to) }
{
    if !all_digits(word) {
        return unnumbered(OTHER, to);
    }
    let magnitude = number_of(word);
    if magnitude == 0 {
        return unnumbered(OTHER, to);
    }
    Token {
        class: NEGATIVE,
        magnitude,
        to,
    }
}

// Reads a word, which ends at `to`.
fn classify(word: &[u8], to: usize) -> Token
    requires { 0 < length word.now }
    ensures { Says word.now result × (result.to ≡ to) }
{
    let name = name_of(word);
    if name != OTHER {
        return unnumbered(name, to);
    }
    if all_digits(word) {
        return plain(word, to);
    }
    if word[0] != b'-' {
        return unnumbered(OTHER, to);
    }
    negated(&word[1..], to)
}

// The next word from `at` on; where there is none, one that ends with the text.
pub fn next_token(b: &[u8], at: usize) -> Token
    requires { at ≤ length b.now }
    ensures { Reads b.now at result }
{
    let from = skip_white(b, at);
    if from == b.len() {
        return unnumbered(NONE, b.len());
    }
    let to = end_of(b, from, false);
    classify(&b[from..to], to)
}
