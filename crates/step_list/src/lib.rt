// A whole list of steps (N2), thin over the single calls. The sheet held is at the front of the first buffer; each call writes to the
// second, and a sheet that it writes there is copied back.
#![tactic(auto)]

ghost use Rattle.std.specs.Prelude.{◌≡◌, ◌≤◌, length};
ghost use Rattle.sheet.specs.Calls.{perform};
ghost use Rattle.sheet.specs.Steps.{single};
ghost use Rattle.rows.specs.Formats.{format_of};
ghost use Rattle.checking.specs.Answers.{written_answer, wrote};
ghost use Rattle.step_list.specs.Inner.Records.{operation_of};
ghost use Rattle.step_list.specs.Inner.Turns.{room, Begins, Kept, Keeps, Took, Follows};

use rows::Format;
use rows::bytes::copy_front;
use rows::fit::shorter;
use rows::refusals::Refusal;

pub mod numbers;

#[derive(Clone, Copy, PartialEq, Eq, Debug)]
pub enum Operation {
    Settle,
    Expand,
}

// A step record: its operation, any number as its variable, and the place for its answer.
#[derive(Clone, Copy)]
pub struct Step {
    pub operation: Operation,
    pub variable: usize,
    pub answer: Result<usize, Refusal>,
}

// After a turn: the record, filled, and the length of the sheet held.
#[derive(Clone, Copy)]
pub struct Turn {
    pub step: Step,
    pub held: usize,
}

// Tests 1 to 8, then 13: a buffer shorter than the sheet. Passed, the sheet stands at the front of the first buffer.
fn begin(sheet: &[u8], f: Format, first: &mut [u8], second: &[u8]) -> Result<(), Refusal>
    ensures { Begins (format_of f) sheet.now first.old second.now first.new result }
{
    checking::check(sheet, f)?;
    if shorter(first.len(), second.len()) < sheet.len() {
        return Err(Refusal::NoRoom);
    }
    copy_front(sheet, first);
    Ok(())
}

// Makes the single call of a step.
fn call(
    operation: Operation,
    f: Format,
    x: usize,
    sheet: &[u8],
    out: &mut [u8],
) -> Result<usize, Refusal>
    ensures { wrote result out.new ≡ perform (format_of f) (single (operation_of operation) x out.old) sheet.now }
{
    match operation {
        Operation::Settle => settle::settle(sheet, f, x, out),
        Operation::Expand => expand::expand(sheet, f, x, out),
    }
}

// Copies an accepted sheet back to the first buffer, and returns the length of the sheet held.
fn keep(answer: Result<usize, Refusal>, held: usize, first: &mut [u8], second: &[u8]) -> usize
    requires { Kept first.old second.now answer }
    ensures { Keeps held first.old second.now first.new result answer }
{
    let Ok(bytes) = answer else {
        return held;
    };
    copy_front(&second[..bytes], first);
    bytes
}

// One turn: the record `s` with its single call's answer, and the sheet then held.
fn one(s: Step, f: Format, held: usize, first: &mut [u8], second: &mut [u8]) -> Turn
    requires { held ≤ room first.old second.old }
    ensures { Took (format_of f) s held first.old second.old first.new result }
{
    let operation = s.operation;
    let n = shorter(first.len(), second.len());
    let answer = call(operation, f, s.variable, &first[..held], &mut second[..n]);
    let kept = keep(answer, held, first, second);
    let step = Step {
        operation,
        variable: s.variable,
        answer,
    };
    Turn { step, held: kept }
}

// Takes the steps of a lent list on the sheet held: every record is filled with what its single call answers, and the length of the
// sheet then held is returned.
fn follow(steps: &mut [Step], f: Format, held: usize, first: &mut [u8], second: &mut [u8]) -> usize
    requires { held ≤ room first.old second.old }
    ensures { Follows (format_of f) steps.old held first.old second.old steps.new first.new result }
{
    let mut kept = held;
    for step in steps.iter_mut() {
        let t = one(*step, f, kept, first, second);
        *step = t.step;
        kept = t.held;
    }
    kept
}
