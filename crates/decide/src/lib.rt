// Decide: Solve, and where a run stops a split on the first row of the sheet reached, each half decided in the same way. Work buffers and
// waiting sheets are lent, so it takes no memory of its own beyond a frame for each open split.
#![tactic(auto)]

ghost use Rattle.std.specs.Prelude.{◌≡◌};
ghost use Rattle.sheet.specs.Decide.{decide_answer, decide_call};
ghost use Rattle.sheet.specs.Truthful.{truth_of, TruthfulDecide};
ghost use Rattle.rows.specs.Formats.{format_of};
ghost use Rattle.rows.specs.Layouts.{format_in};
ghost use Rattle.checking.specs.Sheets.{Sheet};
ghost use Rattle.decide.specs.Answers.{outcome_of, answer_of, decide_left};

use crate::search::{Decision, seek};
use rows::bytes::{clear, copy_front};
use rows::fit::shorter;
use rows::refusals::Refusal;
use rows::{Format, Layout};

pub mod running;
pub mod search;
pub mod waiting;

// Decides a sheet that Check accepts, of this layout: 13 a work buffer shorter than the sheet.
fn decide_checked(
    sheet: &[u8],
    s: Layout,
    budget: usize,
    first: &mut [u8],
    second: &mut [u8],
    stack: &mut [u8],
) -> Result<Decision, Refusal>
    requires { Sheet s.format sheet.now s }
    ensures { decide_left result first second stack ≡ decide_call (format_in s) sheet.now budget first.old second.old stack.old }
{
    if shorter(first.len(), second.len()) < sheet.len() {
        return Err(Refusal::NoRoom);
    }
    copy_front(sheet, first);
    let d = seek(first, second, stack, s, budget);
    clear(first, 0);
    clear(second, 0);
    clear(stack, 0);
    Ok(d)
}

// Decides a sheet within so many runs of Solve, in two work buffers and with a stack for sheets that wait, each in a place as long as the
// shorter buffer. All three then hold zeros; refused, they are left as they were.
pub fn decide(
    sheet: &[u8],
    f: Format,
    budget: usize,
    first: &mut [u8],
    second: &mut [u8],
    stack: &mut [u8],
) -> Result<Decision, Refusal>
    ensures stack_value { decide_left result first second stack ≡ decide_call (format_of f) sheet.now budget first.old second.old stack.old }
    ensures truthful_decide { TruthfulDecide (truth_of (format_of f) sheet.now) (decide_left result first second stack) }
{
    let s = checking::check(sheet, f)?;
    decide_checked(sheet, s, budget, first, second, stack)
}
