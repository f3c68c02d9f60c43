// The list for callers in C: operations, variables and answers in arrays of numbers, as many records as the shortest holds. It is taken in
// parts, each lent to `follow` as a slice of step structs; the sheet held is handed on from part to part.
ghost use Rattle.std.specs.Prelude.{◌≡◌, length};
ghost use Rattle.sheet.specs.Truthful.{truth_of, TruthfulSteps};
ghost use Rattle.rows.specs.Formats.{format_of};
ghost use Rattle.rows.specs.Refusals.{told};
ghost use Rattle.step_list.specs.Inner.Records.{operation_of};
ghost use Rattle.step_list.specs.Inner.Parts.{Within, Loaded, Lendable, Parted, Stored};
ghost use Rattle.step_list.specs.Numbers.{numbered_operation, answer_number, answer_value, numbers_left, numbers_call, listed_left};

use crate::{Operation, Step, begin, follow};
use rows::Format;
use rows::bytes::clear;
use rows::fit::shorter;
use rows::refusals::Refusal;

// How many records are lent to `follow` at once.
const PART: usize = 64;

// After a part of the list: its records, and the length of the sheet held.
#[derive(Clone, Copy)]
pub struct Part {
    pub steps: [Step; PART],
    pub held: usize,
}

// 0 settles, any other number expands.
fn operation_for(number: u8) -> Operation
    ensures { operation_of result ≡ numbered_operation number }
{
    if number == 0 {
        return Operation::Settle;
    }
    Operation::Expand
}

// The refusal number, 0 if accepted.
fn number_of(answer: Result<usize, Refusal>) -> usize
    ensures { result ≡ answer_number (told answer) }
{
    match answer {
        Ok(_) => 0,
        Err(refusal) => refusal.number(),
    }
}

// The new length, or the refusal's place.
fn value_of(answer: Result<usize, Refusal>) -> usize
    ensures { result ≡ answer_value (told answer) }
{
    match answer {
        Ok(length) => length,
        Err(refusal) => refusal.place(),
    }
}

// Loads n records: record j is the caller's record `at + j`.
fn load(operations: &[u8], variables: &[usize], at: usize, n: usize) -> [Step; PART]
    requires { Within at n (length operations.now) (length variables.now) }
    ensures { Loaded operations.now variables.now at n result }
{
    let blank = Step {
        operation: Operation::Settle,
        variable: 0,
        answer: Ok(0),
    };
    let mut steps = [blank; PART];
    for j in 0..n {
        steps[j] = Step {
            operation: operation_for(operations[at + j]),
            variable: variables[at + j],
            answer: Ok(0),
        };
    }
    steps
}

// Lends the first n records to `follow`.
fn follow_part(
    steps: [Step; PART],
    n: usize,
    f: Format,
    held: usize,
    first: &mut [u8],
    second: &mut [u8],
) -> Part
    requires { Lendable n held first.old second.old }
    ensures { Parted (format_of f) steps n held first.old second.old first.new result }
{
    let mut lent = steps;
    let kept = follow(&mut lent[..n], f, held, first, second);
    Part {
        steps: lent,
        held: kept,
    }
}

// Stores the answers of the first n records from place `at` on.
fn store(steps: [Step; PART], n: usize, at: usize, numbers: &mut [usize], values: &mut [usize])
    requires { Within at n (length numbers.old) (length values.old) }
    ensures { Stored steps n at numbers.old values.old numbers.new values.new }
{
    for j in 0..n {
        numbers[at + j] = number_of(steps[j].answer);
        values[at + j] = value_of(steps[j].answer);
    }
}

// Takes the steps of a list on a sheet: record i settles or expands `variables[i]`, as `operations[i]` says, and what its single call
// answers goes to `numbers[i]` and `values[i]`. The first buffer ends with the final sheet and zeros, the second with zeros, and the sheet's
// length is returned; or the list is refused and nothing changes.
pub fn follow_numbers(
    sheet: &[u8],
    f: Format,
    operations: &[u8],
    variables: &[usize],
    numbers: &mut [usize],
    values: &mut [usize],
    first: &mut [u8],
    second: &mut [u8],
) -> Result<usize, Refusal>
    ensures second_value { numbers_left result numbers values first second ≡ numbers_call (format_of f) sheet operations variables numbers values first second }
    ensures truthful_steps { TruthfulSteps (format_of f) (truth_of (format_of f) sheet.now) (listed_left result operations variables numbers values first second) }
{
    let count = shorter(
        shorter(operations.len(), variables.len()),
        shorter(numbers.len(), values.len()),
    );
    begin(sheet, f, first, second)?;
    let mut held = sheet.len();
    let mut at: usize = 0;
    while at < count {
        let n = shorter(count - at, PART);
        let steps = load(operations, variables, at, n);
        let p = follow_part(steps, n, f, held, first, second);
        store(p.steps, n, at, numbers, values);
        held = p.held;
        at += n;
    }
    clear(first, held);
    clear(second, 0);
    Ok(held)
}
