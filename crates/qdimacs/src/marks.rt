// A mark for each variable number: bound by a quantifier line, or else named in a clause and so free.
ghost use Rattle.std.specs.Prelude.{◌≡◌, cond, ◌≤◌, ◌<◌, eqb, length, replicate};
ghost use Rattle.rows.specs.Tables.{HIGHEST, NUMBERS};
ghost use Rattle.words.specs.Numbers.{largest};
ghost use Rattle.qdimacs.specs.Inner.Marks.{Listed, found_with, marks_with, Binds, named_by, named_with, Names, frees};

use crate::clauses::literal_said;
use crate::prefix::{BETWEEN, CLAUSE, step};
use rows::NUMBERS;
use words::literal::variable_of;
use words::token::{POSITIVE, Token, ZERO, next_token};

pub const BOUND: u8 = 1;

pub const FREE: u8 = 2;

// Whether a number is bound twice, and how many bindings there are.
#[derive(Clone, Copy)]
pub struct Bound {
    pub twice: bool,
    pub count: usize,
}

// Marks a number of a quantifier line as bound.
fn bind_word(found: Bound, t: Token, marks: &mut [u8; NUMBERS]) -> Bound
    requires { (t.class ≡ 7 → t.magnitude < NUMBERS) × (found.count < largest) × (length marks.old ≡ NUMBERS) }
    ensures value { result ≡ found_with found t marks.old }
    ensures marks_after { marks.new ≡ marks_with t marks.old }
{
    if t.class != POSITIVE {
        return found;
    }
    let x = t.magnitude;
    let count = found.count + 1;
    if marks[x] == BOUND {
        return Bound { twice: true, count };
    }
    marks[x] = BOUND;
    Bound { count, ..found }
}

// Marks the numbers of the quantifier lines.
pub fn bind(b: &[u8], marks: &mut [u8; NUMBERS]) -> Bound
    requires { Listed b.now × (marks.old ≡ replicate NUMBERS 0) }
    ensures { Binds b.now result marks.new }
{
    let mut found = Bound {
        twice: false,
        count: 0,
    };
    let mut state = BETWEEN;
    let mut at: usize = 0;
    while at < b.len() {
        let t = next_token(b, at);
        let next = step(state, t.class);
        if CLAUSE <= next {
            return found;
        }
        found = bind_word(found, t, marks);
        state = next;
        at = t.to;
    }
    found
}

// Marks the variable of a literal as free, if it is not bound.
fn name_literal(literal: i32, marks: &mut [u8; NUMBERS])
    requires { length marks.old ≡ NUMBERS }
    ensures { marks.new ≡ named_by literal marks.old }
{
    let x = variable_of(literal);
    if x < NUMBERS && marks[x] == 0 {
        marks[x] = FREE;
    }
}

// Marks the variable of a number of a clause as free, if it is not bound.
fn name_word(t: Token, marks: &mut [u8; NUMBERS])
    requires { length marks.old ≡ NUMBERS }
    ensures { marks.new ≡ named_with t marks.old }
{
    if ZERO <= t.class {
        name_literal(literal_said(t), marks);
    }
}

// Marks the variables of the clauses from `from` on that are not bound as free.
pub fn name(b: &[u8], from: usize, marks: &mut [u8; NUMBERS])
    requires { (from ≤ length b.now) × (length marks.old ≡ NUMBERS) }
    ensures { Names b.now from marks.old marks.new }
{
    let mut at = from;
    while at < b.len() {
        let t = next_token(b, at);
        name_word(t, marks);
        at = t.to;
    }
}

// How many numbers up to `most` are free.
pub fn count_free(marks: &[u8; NUMBERS], most: usize) -> usize
    requires { (most ≤ HIGHEST) × (length marks.now ≡ NUMBERS) }
    ensures { (result ≡ length (frees marks.now most)) × (result ≤ most) }
{
    let mut count: usize = 0;
    for x in 1..most + 1 {
        count += usize::from(marks[x] == FREE);
    }
    count
}
