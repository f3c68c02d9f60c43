// Force (N9): given values for the first variables of the prefix, whose turn is next and with which values its owner forces the outcome
// wanted. Each of 0 and 1 is judged by a run of Solve on the sheet so reduced, which is written to the first buffer.
#![tactic(auto)]

ghost use Rattle.std.specs.Prelude.{◌≡◌, ◌<◌};
ghost use Rattle.std.specs.Bool.{beq};
ghost use Rattle.formula.specs.Force.{which};
ghost use Rattle.sheet.specs.Force.{are_values, force_call};
ghost use Rattle.sheet.specs.Trace.{room};
ghost use Rattle.sheet.specs.Truthful.{TruthfulForce};
ghost use Rattle.rows.specs.Formats.{format_of};
ghost use Rattle.rows.specs.Layouts.{format_in};
ghost use Rattle.rows.specs.Formulas.{Readable};
ghost use Rattle.checking.specs.Sheets.{Sheet};
ghost use Rattle.prefixes.specs.Places.{binding_in};
ghost use Rattle.solve.specs.Answers.{verdict_of};
ghost use Rattle.force.specs.Answers.{turn_of, outcome_of, forcing_of};
ghost use Rattle.force.specs.Inner.Judging.{Judgeable, outcome_in};

use crate::judge::judge;
use prefixes::is_existential;
use rows::bytes::clear;
use rows::fit::shorter;
use rows::refusals::Refusal;
use rows::{Format, Layout};
use solve::{Solved, Verdict};

pub mod judge;
pub mod moves;

// Whose turn is next: the owner of the first row without a value.
#[derive(Clone, Copy, PartialEq, Eq, Debug)]
pub enum Turn {
    Exists,
    ForAll,
}

// With which values the owner forces the outcome wanted, or the variable at which a value's run stopped.
#[derive(Clone, Copy, PartialEq, Eq, Debug)]
pub enum Outcome {
    Neither,
    Zero,
    One,
    Both,
    Stopped(usize),
}

// The turn and its outcome.
#[derive(Clone, Copy, PartialEq, Eq, Debug)]
pub struct Forced {
    pub turn: Turn,
    pub outcome: Outcome,
}

// Whether every byte is 0 or 1.
pub fn are_values(values: &[u8]) -> bool
    ensures { result ≡ are_values values.now }
{
    values.iter().all(|v| *v <= 1)
}

// The owner of prefix row `i`.
fn turn_at(b: &[u8], s: Layout, i: usize) -> Turn
    requires { Readable s b.now × (i < s.variables) }
    ensures { turn_of result ≡ (binding_in s b.now i).quantifier }
{
    if is_existential(b, s, i) {
        return Turn::Exists;
    }
    Turn::ForAll
}

// Whether a verdict is the one wanted: true for exists, false for all.
fn is_wanted(existential: bool, verdict: Verdict) -> bool
    ensures { result ≡ beq existential (verdict_of verdict) }
{
    match verdict {
        Verdict::True => existential,
        Verdict::False => !existential,
    }
}

fn outcome_for(zero: bool, one: bool) -> Outcome
    ensures { outcome_of result ≡ which zero one }
{
    if zero {
        if one {
            return Outcome::Both;
        }
        return Outcome::Zero;
    }
    if one {
        return Outcome::One;
    }
    Outcome::Neither
}

// Tries both values, 0 first; a run that stops is the outcome.
fn try_both(sheet: &[u8], s: Layout, values: &[u8], first: &mut [u8], second: &mut [u8]) -> Outcome
    requires { Judgeable s sheet.now values.now (room first.old second.old) }
    ensures { outcome_of result ≡ outcome_in s sheet.now values.now (room first.old second.old) }
{
    let existential = is_existential(sheet, s, values.len());
    let at_zero = match judge(sheet, s, values, false, first, second) {
        Solved::Stopped(x, _, _) => return Outcome::Stopped(x),
        Solved::Ended(verdict, _, _) => verdict,
    };
    let at_one = match judge(sheet, s, values, true, first, second) {
        Solved::Stopped(x, _, _) => return Outcome::Stopped(x),
        Solved::Ended(verdict, _, _) => verdict,
    };
    outcome_for(
        is_wanted(existential, at_zero),
        is_wanted(existential, at_one),
    )
}

// Answers for a sheet that Check accepts, of this layout: 21 a value isn't 0 or 1, 22 the values are as many as V or more, 13 a work
// buffer shorter than the sheet.
fn force_checked(
    sheet: &[u8],
    s: Layout,
    values: &[u8],
    first: &mut [u8],
    second: &mut [u8],
) -> Result<Forced, Refusal>
    requires { Sheet s.format sheet.now s }
    ensures { forcing_of result first.new second.new ≡ force_call (format_in s) sheet.now values.now first.old second.old }
{
    if !are_values(values) {
        return Err(Refusal::BadValue);
    }
    if s.variables <= values.len() {
        return Err(Refusal::TooManyValues);
    }
    if shorter(first.len(), second.len()) < sheet.len() {
        return Err(Refusal::NoRoom);
    }
    let turn = turn_at(sheet, s, values.len());
    let outcome = try_both(sheet, s, values, first, second);
    clear(first, 0);
    clear(second, 0);
    Ok(Forced { turn, outcome })
}

// Answers for a sheet, with values for its first variables (a byte each, 0 or 1), whose turn is next and with which values its owner forces
// the outcome wanted. Both work buffers then hold zeros; refused, they are left as they were.
pub fn force(
    sheet: &[u8],
    f: Format,
    values: &[u8],
    first: &mut [u8],
    second: &mut [u8],
) -> Result<Forced, Refusal>
    ensures second_after { forcing_of result first.new second.new ≡ force_call (format_of f) sheet.now values.now first.old second.old }
    ensures truthful_force { TruthfulForce (format_of f) sheet.now values.now (forcing_of result first.new second.new) }
{
    let s = checking::check(sheet, f)?;
    force_checked(sheet, s, values, first, second)
}
