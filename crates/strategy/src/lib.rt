// Strategy (Strategy 1): Solve's run, and the functions with which the side that it lets win does win, as a sheet. Only the winner's
// functions are wanted, and the winner is known at the end: so Solve runs first, and its steps are made once more to write them.
#![tactic(auto)]

ghost use Rattle.std.specs.Prelude.{◌≡◌, length, replicate};
ghost use Rattle.sheet.specs.Strategy.{strategy_call};
ghost use Rattle.sheet.specs.Trace.{room};
ghost use Rattle.sheet.specs.Truthful.{TruthfulStrategy};
ghost use Rattle.rows.specs.Formats.{format_of};
ghost use Rattle.rows.specs.Layouts.{format_in};
ghost use Rattle.checking.specs.Sheets.{Sheet};
ghost use Rattle.solve.specs.Answers.{verdict_of};
ghost use Rattle.strategy.specs.Answers.{leaves};
ghost use Rattle.strategy.specs.Inner.Ending.{left_in, StrategyReady, StrategyDrafted, StrategyEnded};

use crate::draft::draft_front;
use crate::room::nodes_that_fit;
use crate::walk::{Draft, walk};
use pairs::count_left;
use rows::bytes::clear;
use rows::refusals::Refusal;
use rows::write::seal;
use rows::{Format, Layout};
use solve::{Solved, State, Verdict, solve_checked};
use substitution::Target;
use tidying::tidy_into;

pub mod draft;
pub mod room;
pub mod walk;

// Stopped at a variable, as Solve; ended with a verdict, with the number settled, the number expanded and the length of the strategy's
// sheet, or its node rows if it doesn't fit.
#[derive(Clone, Copy, PartialEq, Eq, Debug)]
pub enum StrategyAnswer {
    Stopped(usize, usize, usize),
    Written(Verdict, usize, usize, usize),
    TooLong(Verdict, usize, usize, usize),
}

// The length of the strategy's sheet, or its node rows if it doesn't fit.
#[derive(Clone, Copy, PartialEq, Eq, Debug)]
pub enum Outcome {
    Written(usize),
    TooLong(usize),
}

// Drafts the strategy of the side, exists or for all, in a layout with as many nodes as fit, and returns the row behind it. The work buffers
// end as Solve's.
fn draft_strategy(
    sheet: &[u8],
    s: Layout,
    exists: bool,
    first: &mut [u8],
    second: &mut [u8],
    out: &mut [u8],
) -> Target
    requires { StrategyReady s sheet.now (room first.old second.old) exists }
    ensures strategy_drafted { StrategyDrafted s sheet.now (room first.old second.old) exists out.old out.new result }
    ensures first_after { first.new ≡ left_in s sheet.now (room first.old second.old) (length first.old) }
    ensures second_after { second.new ≡ replicate (length second.old) 0 }
{
    let f = s.format;
    let v = s.variables;
    let t = Layout {
        format: f,
        variables: v,
        nodes: nodes_that_fit(f, v, out.len()),
    };
    let behind = draft_front(sheet, s, count_left(sheet, s, exists), out, t);
    let tidied = tidy_into(sheet, s, first);
    let start = State {
        sheet: tidied,
        settled: 0,
        expanded: 0,
    };
    let pairs = Target {
        layout: t,
        at: behind,
    };
    let draft = Draft { exists, to: pairs };
    let end = walk(first, second, start, out, draft);
    clear(second, 0);
    Target { layout: t, at: end }
}

// Writes the strategy of the side, exists or for all, with zeros behind it; if it doesn't fit, the output is cleared.
fn write_strategy(
    sheet: &[u8],
    s: Layout,
    exists: bool,
    first: &mut [u8],
    second: &mut [u8],
    out: &mut [u8],
) -> Outcome
    requires { StrategyReady s sheet.now (room first.old second.old) exists }
    ensures strategy_ended { StrategyEnded s sheet.now (room first.old second.old) exists out.old out.new result }
    ensures first_after { first.new ≡ left_in s sheet.now (room first.old second.old) (length first.old) }
    ensures second_after { second.new ≡ replicate (length second.old) 0 }
{
    let to = draft_strategy(sheet, s, exists, first, second, out);
    let t = to.layout;
    let nodes = to.at - t.variables;
    if t.nodes < nodes {
        clear(out, 0);
        return Outcome::TooLong(nodes);
    }
    Outcome::Written(seal(out, t, to.at))
}

// Whether the side that wins is exists.
fn exists_wins(verdict: Verdict) -> bool
    ensures { result ≡ verdict_of verdict }
{
    match verdict {
        Verdict::True => true,
        Verdict::False => false,
    }
}

// Answers for a sheet that Check accepts, of this layout.
fn strategy_checked(
    sheet: &[u8],
    s: Layout,
    first: &mut [u8],
    second: &mut [u8],
    out: &mut [u8],
) -> Result<StrategyAnswer, Refusal>
    requires { Sheet s.format sheet.now s }
    ensures { leaves result first.new second.new out.new ≡ strategy_call (format_in s) sheet.now first.old second.old out.old }
{
    match solve_checked(sheet, s, first, second)? {
        Solved::Stopped(x, settled, expanded) => {
            clear(out, 0);
            Ok(StrategyAnswer::Stopped(x, settled, expanded))
        }
        Solved::Ended(verdict, settled, expanded) => {
            match write_strategy(sheet, s, exists_wins(verdict), first, second, out) {
                Outcome::Written(length) => Ok(StrategyAnswer::Written(
                    verdict, settled, expanded, length,
                )),
                Outcome::TooLong(rows) => Ok(StrategyAnswer::TooLong(
                    verdict, settled, expanded, rows,
                )),
            }
        }
    }
}

// Solves a sheet in two work buffers, and writes the strategy of the side that wins to the front of the output, with zeros behind it: the
// sheet's prefix, and an OR of one AND for each pair of a variable and its function. The work buffers end as Solve's. Stopped, or where the
// strategy doesn't fit, the output is zeros; refused, no byte changes.
pub fn strategy(
    sheet: &[u8],
    f: Format,
    first: &mut [u8],
    second: &mut [u8],
    out: &mut [u8],
) -> Result<StrategyAnswer, Refusal>
    ensures out_after { leaves result first.new second.new out.new ≡ strategy_call (format_of f) sheet.now first.old second.old out.old }
    ensures truthful_strategy { TruthfulStrategy (format_of f) sheet.now (leaves result first.new second.new out.new) }
{
    let s = checking::check(sheet, f)?;
    strategy_checked(sheet, s, first, second, out)
}
