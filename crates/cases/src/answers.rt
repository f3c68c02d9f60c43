// What a line contains for each kind of answer.
use crate::outputs::{print_reached, print_short, print_sum};
use force::{Forced, Outcome, Turn};
use guards::Guarded;
use printing::{print_count, print_number};
use rows::refusals::Refusal;
use rows::{Format, Layout};
use solve::Solved;
use sort_compare::compare::CompareRefusal;
use std::cmp::Ordering;
use std::io;
use std::io::Write;
use trial::Tried;

// Longer than any output: no sheet is written.
const NO_SHEET: usize = 65536;

pub fn print_refused<W: Write>(to: &mut W, refusal: Refusal) -> io::Result<()> {
    to.write_all(b" refused")?;
    print_number(to, refusal.number())?;
    print_number(to, refusal.place())
}

pub fn print_checked<W: Write>(to: &mut W, answer: Result<Layout, Refusal>) -> io::Result<()> {
    match answer {
        Ok(s) => {
            to.write_all(b" accepted")?;
            print_number(to, s.variables)?;
            print_number(to, s.nodes)
        }
        Err(refusal) => print_refused(to, refusal),
    }
}

fn print_verdict<W: Write>(to: &mut W, verdict: bool) -> io::Result<()> {
    if verdict {
        to.write_all(b" true")
    } else {
        to.write_all(b" false")
    }
}

pub fn print_tried<W: Write>(to: &mut W, answer: Result<Tried, Refusal>) -> io::Result<()> {
    match answer {
        Ok(t) => {
            print_verdict(to, t.verdict)?;
            print_count(to, t.leaves)
        }
        Err(refusal) => print_refused(to, refusal),
    }
}

// Writes the kinds of Part's rows.
pub fn print_kinds<W: Write>(to: &mut W, kinds: &[u8]) -> io::Result<()> {
    for kind in kinds {
        print_number(to, usize::from(*kind))?;
    }
    Ok(())
}

pub fn print_written<W: Write>(
    to: &mut W,
    answer: Result<usize, Refusal>,
    out: &[u8],
) -> io::Result<()> {
    match answer {
        Ok(length) => {
            to.write_all(b" accepted")?;
            print_number(to, length)?;
            print_sum(to, out)?;
            print_short(to, out, length)
        }
        Err(refusal) => {
            print_refused(to, refusal)?;
            print_sum(to, out)
        }
    }
}

pub fn print_quoted<W: Write>(to: &mut W, answer: Result<usize, Refusal>) -> io::Result<()> {
    match answer {
        Ok(count) => {
            to.write_all(b" rows")?;
            print_number(to, count)
        }
        Err(refusal) => print_refused(to, refusal),
    }
}

pub fn print_solved<W: Write>(
    to: &mut W,
    answer: Result<Solved, Refusal>,
    f: Format,
    first: &[u8],
    second: &[u8],
) -> io::Result<()> {
    to.write_all(b" ")?;
    printing::print_line(to, solve::line::line_for(answer))?;
    print_sum(to, first)?;
    print_sum(to, second)?;
    print_reached(to, first, f)
}

fn print_turn<W: Write>(to: &mut W, turn: Turn) -> io::Result<()> {
    match turn {
        Turn::Exists => to.write_all(b" exists"),
        Turn::ForAll => to.write_all(b" for-all"),
    }
}

fn print_outcome<W: Write>(to: &mut W, outcome: Outcome) -> io::Result<()> {
    match outcome {
        Outcome::Neither => to.write_all(b" neither"),
        Outcome::Zero => print_number(to, 0),
        Outcome::One => print_number(to, 1),
        Outcome::Both => to.write_all(b" both"),
        Outcome::Stopped(x) => {
            to.write_all(b" stopped")?;
            print_number(to, x)
        }
    }
}

pub fn print_forced<W: Write>(
    to: &mut W,
    answer: Result<Forced, Refusal>,
    first: &[u8],
    second: &[u8],
) -> io::Result<()> {
    match answer {
        Ok(panel) => {
            print_turn(to, panel.turn)?;
            print_outcome(to, panel.outcome)?;
        }
        Err(refusal) => print_refused(to, refusal)?,
    }
    print_sum(to, first)?;
    print_sum(to, second)
}

// The answer, a sum over each buffer, and the kept children's sheet if it is short.
pub fn print_guarded<W: Write>(
    to: &mut W,
    answer: Result<Guarded, Refusal>,
    out: &[u8],
    first: &[u8],
    second: &[u8],
) -> io::Result<()> {
    let mut kept = NO_SHEET;
    match answer {
        Err(refusal) => print_refused(to, refusal)?,
        Ok(Guarded::Stopped(x, settled, expanded)) => {
            to.write_all(b" stopped")?;
            print_number(to, settled)?;
            print_number(to, expanded)?;
            print_number(to, x)?;
        }
        Ok(Guarded::True(settled, expanded)) => {
            to.write_all(b" true")?;
            print_number(to, settled)?;
            print_number(to, expanded)?;
        }
        Ok(Guarded::Kept(length, stops)) => {
            to.write_all(b" kept")?;
            print_number(to, length)?;
            print_number(to, stops)?;
            kept = length;
        }
    }
    print_sum(to, out)?;
    print_sum(to, first)?;
    print_sum(to, second)?;
    print_short(to, out, kept)
}

fn print_misfit<W: Write>(to: &mut W, refusal: Refusal, which: usize) -> io::Result<()> {
    print_refused(to, refusal)?;
    print_number(to, which)
}

pub fn print_compared<W: Write>(
    to: &mut W,
    answer: Result<Ordering, CompareRefusal>,
    first: &[u8],
    second: &[u8],
) -> io::Result<()> {
    match answer {
        Ok(Ordering::Less) => to.write_all(b" before")?,
        Ok(Ordering::Equal) => to.write_all(b" equal")?,
        Ok(Ordering::Greater) => to.write_all(b" after")?,
        Err(CompareRefusal::First(refusal)) => print_misfit(to, refusal, 1)?,
        Err(CompareRefusal::Second(refusal)) => print_misfit(to, refusal, 2)?,
    }
    print_sum(to, first)?;
    print_sum(to, second)
}
