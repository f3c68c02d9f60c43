// Answers as numbers, for callers in C and Rust: each answer of an operation in one number. include/plumanchor.h describes its parts.
#![tactic(auto)]

ghost use Rattle.std.specs.Prelude.{◌≡◌};
ghost use Rattle.checking.specs.Answers.{checked_answer, written_answer};
ghost use Rattle.trial.specs.Answers.{tried_answer};
ghost use Rattle.solve.specs.Answers.{verdict_of, solve_answer};
ghost use Rattle.guards.specs.Answers.{guards_told};
ghost use Rattle.tree_order.specs.Rows.{ordering};
ghost use Rattle.sort_compare.specs.Answers.{compared_answer};
ghost use Rattle.rows.specs.Refusals.{number_of, place_of, told};
ghost use Rattle.packing.specs.Order.{order_word, packed_compared};
ghost use Rattle.packing.specs.Packed.{packed, packed_check, packed_trial, verdict_word, packed_written, packed_quote, packed_solved, packed_guards};

use rows::Layout;
use rows::refusals::Refusal;
use sort_compare::compare::CompareRefusal;
use std::cmp::Ordering;

pub mod copies;
pub mod panel;

// An answer in one number: refusal number, word and two values.
pub fn pack(number: usize, word: usize, low: usize, high: u64) -> u64
    ensures { result ≡ packed number word low high }
{
    let n = (number % 256) as u64;
    let w = (word % 256) as u64;
    let l = (low % 65536) as u64;
    n + 256 * w + 65536 * l + 4294967296 * (high % 4294967296)
}

// A refusal's number, and its place as the low part.
pub fn pack_refusal(refusal: Refusal) -> u64
    ensures { result ≡ packed (number_of refusal) 0 (place_of refusal) 0 }
{
    pack(refusal.number(), 0, refusal.place(), 0)
}

// What Check answers: refusal number and place, or V and N.
#[tactic(auto, unfolding(crate::specs::Packed::packed_check))]
pub fn pack_checked(answer: Result<Layout, Refusal>) -> u64
    ensures { result ≡ packed_check (checked_answer answer) }
{
    match answer {
        Ok(s) => pack(0, 0, s.variables, s.nodes as u64),
        Err(refusal) => pack_refusal(refusal),
    }
}

// What Trial answers: refusal number and place, or the verdict and the leaves tried.
#[tactic(auto, unfolding(crate::specs::Packed::packed_trial))]
pub fn pack_tried(answer: Result<trial::Tried, Refusal>) -> u64
    ensures { result ≡ packed_trial (tried_answer answer) }
{
    match answer {
        Ok(t) => pack(0, t.verdict as usize, 0, t.leaves),
        Err(refusal) => pack_refusal(refusal),
    }
}

// What an operation that writes a sheet answers: refusal number and place, or the new sheet's length.
#[tactic(auto, unfolding(crate::specs::Packed::packed_written))]
pub fn pack_written(answer: Result<usize, Refusal>) -> u64
    ensures { result ≡ packed_written (written_answer answer) }
{
    match answer {
        Ok(length) => pack(0, 0, 0, length as u64),
        Err(refusal) => pack_refusal(refusal),
    }
}

// What Quote answers: refusal number and place, or the raw row count.
#[tactic(auto, unfolding(crate::specs::Packed::packed_quote))]
pub fn pack_quoted(answer: Result<usize, Refusal>) -> u64
    ensures { result ≡ packed_quote (told answer) }
{
    match answer {
        Ok(count) => pack(0, 0, 0, count as u64),
        Err(refusal) => pack_refusal(refusal),
    }
}

// A verdict's word: 1 true, 0 false.
pub fn word_for(verdict: solve::Verdict) -> usize
    ensures { result ≡ verdict_word (verdict_of verdict) }
{
    match verdict {
        solve::Verdict::True => 1,
        solve::Verdict::False => 0,
    }
}

// What Solve answers: refusal number and place; or a word, the number settled, the number expanded and the variable stopped at.
#[tactic(auto, unfolding(crate::specs::Packed::packed_solved))]
pub fn pack_solved(answer: Result<solve::Solved, Refusal>) -> u64
    ensures { result ≡ packed_solved (solve_answer answer) }
{
    match answer {
        Ok(solve::Solved::Stopped(x, settled, expanded)) => pack(
            0,
            2,
            settled,
            (expanded % 65536) as u64 + 65536 * ((x % 65536) as u64),
        ),
        Ok(solve::Solved::Ended(verdict, settled, expanded)) => pack(
            0,
            word_for(verdict),
            settled,
            (expanded % 65536) as u64,
        ),
        Err(refusal) => pack_refusal(refusal),
    }
}

// What Guards answers: refusal number and place; the initial run's answer, as Solve's; or the length of the kept children's sheet and the
// count.
#[tactic(auto, unfolding(crate::specs::Packed::packed_guards))]
pub fn pack_guarded(answer: Result<guards::Guarded, Refusal>) -> u64
    ensures { result ≡ packed_guards (guards_told answer) }
{
    match answer {
        Ok(guards::Guarded::Stopped(variable, settled, expanded)) => pack(
            0,
            2,
            settled,
            (expanded % 65536) as u64 + 65536 * ((variable % 65536) as u64),
        ),
        Ok(guards::Guarded::True(settled, expanded)) => {
            pack(0, 1, settled, (expanded % 65536) as u64)
        }
        Ok(guards::Guarded::Kept(length, stops)) => pack(0, 0, stops, length as u64),
        Err(refusal) => pack_refusal(refusal),
    }
}

// The word of an order: 0 before, 1 equal, 2 after.
fn word_of(order: Ordering) -> usize
    ensures { result ≡ order_word (ordering order) }
{
    match order {
        Ordering::Less => 0,
        Ordering::Equal => 1,
        Ordering::Greater => 2,
    }
}

// What Compare answers: refusal number, the sheet refused as the word, and place; or the word of the order.
#[tactic(auto, unfolding(crate::specs::Order::packed_compared))]
pub fn pack_compared(answer: Result<Ordering, CompareRefusal>) -> u64
    ensures { result ≡ packed_compared (compared_answer answer) }
{
    match answer {
        Ok(order) => pack(0, word_of(order), 0, 0),
        Err(CompareRefusal::First(refusal)) => pack(refusal.number(), 1, refusal.place(), 0),
        Err(CompareRefusal::Second(refusal)) => pack(refusal.number(), 2, refusal.place(), 0),
    }
}
