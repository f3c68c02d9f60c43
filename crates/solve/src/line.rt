// The line that the program writes for an answer of Solve.
ghost use Rattle.std.specs.Prelude.{◌≡◌, ℕ};
ghost use Rattle.sheet.specs.Operations.{is_refused, verdict_word, line_of};
ghost use Rattle.solve.specs.Answers.{verdict_of, solve_answer};
ghost use Rattle.solve.specs.Lines.{word_of, written_line};

use crate::{Solved, Verdict};
use rows::refusals::Refusal;

#[derive(Clone, Copy)]
pub enum Word {
    True,
    False,
    Stopped,
    Refused,
}

// A word; settled; expanded; then 0, the variable stopped at, or the refusal number.
#[derive(Clone, Copy)]
pub struct Line {
    pub word: Word,
    pub settled: usize,
    pub expanded: usize,
    pub last: usize,
}

fn word_for(verdict: Verdict) -> Word
    ensures { word_of result ≡ verdict_word (verdict_of verdict) }
{
    match verdict {
        Verdict::True => Word::True,
        Verdict::False => Word::False,
    }
}

// The line for a refusal of any number, whatever its place: 0 0 before the number.
pub fn refused_line(number: usize) -> Line
    ensures { (place : ℕ) → written_line result ≡ line_of (is_refused number place) }
{
    Line {
        word: Word::Refused,
        settled: 0,
        expanded: 0,
        last: number,
    }
}

// The line for an answer.
pub fn line_for(answer: Result<Solved, Refusal>) -> Line
    ensures { written_line result ≡ line_of (solve_answer answer) }
{
    match answer {
        Err(refusal) => refused_line(refusal.number()),
        Ok(Solved::Stopped(x, settled, expanded)) => Line {
            word: Word::Stopped,
            settled,
            expanded,
            last: x,
        },
        Ok(Solved::Ended(verdict, settled, expanded)) => Line {
            word: word_for(verdict),
            settled,
            expanded,
            last: 0,
        },
    }
}
