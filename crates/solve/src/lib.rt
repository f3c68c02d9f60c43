// Solve: tidy, then settle or expand until the sheet is decided or the next raw sheet doesn't fit ("Solve"). The two lent buffers
// hold all sheets: the first the one reached, the second the one that the step at hand writes.
#![tactic(auto)]

ghost use Rattle.std.specs.Prelude.{◌≡◌};
ghost use Rattle.sheet.specs.Operations.{solve_call};
ghost use Rattle.sheet.specs.Truthful.{truth_of, TruthfulSolve};
ghost use Rattle.rows.specs.Formats.{format_of};
ghost use Rattle.rows.specs.Layouts.{format_in};
ghost use Rattle.checking.specs.Sheets.{Sheet};
ghost use Rattle.solve.specs.Answers.{solved_answer, leaves, run_leaves};
ghost use Rattle.solve.specs.Inner.Running.{RunReady, RawReady, Goes, run_call, raw_call};

use crate::step::{Step, take_step};
use rows::bytes::{clear, copy_front};
use rows::fit::shorter;
use rows::refusals::Refusal;
use rows::{Format, Layout, ROWS};
use tidying::tidy_in_place;

pub mod line;
pub mod step;
pub mod verdicts;

#[derive(Clone, Copy, PartialEq, Eq, Debug)]
pub enum Verdict {
    True,
    False,
}

// Stopped at a variable, or ended with a verdict, both with the number settled and the number expanded.
#[derive(Clone, Copy, PartialEq, Eq, Debug)]
pub enum Solved {
    Stopped(usize, usize, usize),
    Ended(Verdict, usize, usize),
}

// The state of a run: the layout of the sheet reached, the number settled and the number expanded.
#[derive(Clone, Copy)]
pub struct State {
    pub sheet: Layout,
    pub settled: usize,
    pub expanded: usize,
}

// Takes steps from a state whose tidy sheet is in the first buffer, for as long as raw sheets fit `room` bytes.
fn go(first: &mut [u8], second: &mut [u8], room: usize, start: State) -> Solved
    requires { RunReady room start first.old second.old }
    ensures { Goes room start first.old first.new (solved_answer result) }
{
    let mut s = start;
    let mut ends = [0u16; ROWS];
    loop {
        match take_step(first, second, room, s, &mut ends) {
            Step::Ended(verdict) => return Solved::Ended(verdict, s.settled, s.expanded),
            Step::Stopped(x) => return Solved::Stopped(x, s.settled, s.expanded),
            Step::Next(next) => s = next,
        }
    }
}

// Goes on from a state whose tidy sheet is in the first buffer, for as long as raw sheets fit `room` bytes, which both buffers have. The
// first then holds the sheet reached and zeros, the second only zeros.
pub fn run(first: &mut [u8], second: &mut [u8], room: usize, start: State) -> Solved
    requires { RunReady room start first.old second.old }
    ensures { run_leaves result first.new second.new ≡ run_call room start first.old second.old }
{
    let answer = go(first, second, room, start);
    clear(second, 0);
    answer
}

// Tidies the formula whose rows are in the first buffer, and runs from there, with the shorter buffer's length as room.
pub fn run_raw(first: &mut [u8], second: &mut [u8], s: Layout) -> Solved
    requires { RawReady s first.old second.old }
    ensures { run_leaves result first.new second.new ≡ raw_call s first.old second.old }
{
    let room = shorter(first.len(), second.len());
    let start = State {
        sheet: tidy_in_place(first, s),
        settled: 0,
        expanded: 0,
    };
    run(first, second, room, start)
}

// Solves a sheet that Check accepts, of this layout: 13 a work buffer shorter than the sheet.
pub fn solve_checked(
    sheet: &[u8],
    s: Layout,
    first: &mut [u8],
    second: &mut [u8],
) -> Result<Solved, Refusal>
    requires { Sheet s.format sheet.now s }
    ensures { leaves result first.new second.new ≡ solve_call (format_in s) sheet.now first.old second.old }
{
    if shorter(first.len(), second.len()) < sheet.len() {
        return Err(Refusal::NoRoom);
    }
    copy_front(sheet, first);
    Ok(run_raw(first, second, s))
}

// Solves a sheet in two work buffers. The first then holds the sheet reached and zeros, the second only zeros; refused, both are left as
// they were.
pub fn solve(
    sheet: &[u8],
    f: Format,
    first: &mut [u8],
    second: &mut [u8],
) -> Result<Solved, Refusal>
    ensures second_after { leaves result first.new second.new ≡ solve_call (format_of f) sheet.now first.old second.old }
    ensures truthful_solve { TruthfulSolve (format_of f) (truth_of (format_of f) sheet.now) (leaves result first.new second.new) }
{
    let s = checking::check(sheet, f)?;
    solve_checked(sheet, s, first, second)
}
