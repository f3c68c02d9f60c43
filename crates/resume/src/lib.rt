// Resume: a stopped run goes on under the wide limits. The sheet reached is widened into the first work buffer, Solve runs there, and the
// counts given are added to its own.
#![tactic(auto)]

ghost use Rattle.std.specs.Prelude.{◌≡◌, ◌+◌, eqb};
ghost use Rattle.sheet.specs.Format.{wide};
ghost use Rattle.sheet.specs.Resume.{add_to_answer};
ghost use Rattle.sheet.specs.Truthful.{truth_of, TruthfulSolve};
ghost use Rattle.rows.specs.Formats.{format_of};
ghost use Rattle.solve.specs.Answers.{solve_answer, solved_answer};
ghost use Rattle.resume.specs.Calls.{resume_with};
ghost use Rattle.resume.specs.Inner.Going.{Widenable, wide_call, Addable, Placed, resumed};

use conversion::convert;
use rows::fit::{sheet_length, shorter};
use rows::refusals::Refusal;
use rows::{Format, Layout};
use solve::{Solved, run_raw};

// How many variables a run began with, and how many of them it settled and expanded.
#[derive(Clone, Copy)]
pub struct Counts {
    pub started: usize,
    pub settled: usize,
    pub expanded: usize,
}

// Whether settled, expanded and variables left add up to the starting count. They are subtracted one by one, so that no sum is too large.
fn adds_up(c: Counts, left: usize) -> bool
    ensures { result ≡ eqb (c.settled + c.expanded + left) c.started }
{
    if c.started < c.settled {
        return false;
    }
    let rest = c.started - c.settled;
    if rest < c.expanded {
        return false;
    }
    rest - c.expanded == left
}

// Solves the formula whose rows stand in `sheet` as a wide sheet, in the two work buffers.
fn run_wide(sheet: &[u8], s: Layout, first: &mut [u8], second: &mut [u8]) -> Solved
    requires { Widenable s sheet.now first.old second.old }
    ensures { record { answer = solved_answer result; first = first.new; second = second.new } ≡ wide_call s sheet.now first.old second.old }
{
    let t = convert(sheet, s, Format::Wide, first);
    run_raw(first, second, t)
}

// An answer of Solve with the counts given added to its own.
fn add_counts(answer: Solved, c: Counts) -> Solved
    requires { Addable c.settled c.expanded answer }
    ensures { solved_answer result ≡ add_to_answer c.settled c.expanded (solved_answer answer) }
{
    match answer {
        Solved::Stopped(x, settled, expanded) => {
            Solved::Stopped(x, c.settled + settled, c.expanded + expanded)
        }
        Solved::Ended(verdict, settled, expanded) => {
            Solved::Ended(verdict, c.settled + settled, c.expanded + expanded)
        }
    }
}

// Goes on from a sheet that Check accepts, of this layout: 25 the counts don't add up, 13 a work buffer shorter than the widened sheet.
fn resume_checked(
    sheet: &[u8],
    s: Layout,
    c: Counts,
    first: &mut [u8],
    second: &mut [u8],
) -> Result<Solved, Refusal>
    requires { Placed s sheet.now }
    ensures { record { answer = solve_answer result; first = first.new; second = second.new } ≡ resumed s c sheet.now first.old second.old }
{
    if !adds_up(c, s.variables) {
        return Err(Refusal::WrongCounts);
    }
    let length = sheet_length(Format::Wide, s.variables, s.nodes);
    if shorter(first.len(), second.len()) < length {
        return Err(Refusal::NoRoom);
    }
    Ok(add_counts(run_wide(sheet, s, first, second), c))
}

// Carries a stopped run over ("Carry a stopped run over"): goes on from the sheet reached, of the format `f`, with the counts of the run so
// far. The first work buffer then holds the sheet reached, a wide one, and zeros, the second only zeros; refused, both are left as they
// were.
pub fn resume(
    sheet: &[u8],
    f: Format,
    c: Counts,
    first: &mut [u8],
    second: &mut [u8],
) -> Result<Solved, Refusal>
    ensures second_after { record { answer = solve_answer result; first = first.new; second = second.new } ≡ resume_with c sheet.now f first.old second.old }
    ensures truthful_solve { TruthfulSolve wide (truth_of (format_of f) sheet.now) (record { answer = solve_answer result; first = first.new; second = second.new }) }
{
    let s = checking::check(sheet, f)?;
    resume_checked(sheet, s, c, first, second)
}
