// Decide. The answer has 32 bits for the number of runs, so no budget is larger.
ghost use Rattle.std.specs.Prelude.{◌≡◌};
ghost use Rattle.sheet.specs.Format.{narrow, wide};
ghost use Rattle.sheet.specs.Decide.{decide_call};
ghost use Rattle.sheet.specs.Truthful.{truth_of};
ghost use Rattle.rows.specs.Formats.{format_of};
ghost use Rattle.decide.specs.Answers.{answer_of};
ghost use Rattle.capi_decide.specs.Packed.{packed_decided};
ghost use Rattle.capi_decide.specs.Returned.{allowed, leaves, packed_deciding};
ghost use Rattle.capi_decide.specs.Told.{ToldDecide};

use decide::search::{Decision, Outcome};
use packing::{pack, pack_refusal, word_for};
use rows::Format;
use rows::fit::shorter;
use rows::refusals::Refusal;

// The largest budget.
const MOST_RUNS: usize = 4294967295;

// What Decide answers: refusal number and place; or a word and the number of runs.
#[tactic(auto, unfolding(crate::specs::Packed::packed_decided))]
fn pack_decided(answer: Result<Decision, Refusal>) -> u64
    ensures { result ≡ packed_decided (answer_of answer) }
{
    match answer {
        Ok(d) => match d.outcome {
            Outcome::Decided(verdict) => pack(0, word_for(verdict), 0, d.runs as u64),
            Outcome::NoPlace => pack(0, 2, 0, d.runs as u64),
            Outcome::Spent => pack(0, 3, 0, d.runs as u64),
        },
        Err(refusal) => pack_refusal(refusal),
    }
}

fn decide(
    sheet: &[u8],
    f: Format,
    budget: usize,
    first: &mut [u8],
    second: &mut [u8],
    stack: &mut [u8],
) -> u64
    ensures stack_value { leaves result first second stack ≡ packed_deciding (decide_call (format_of f) sheet.now (allowed budget) first.old second.old stack.old) }
    ensures told_decide { ToldDecide (truth_of (format_of f) sheet.now) result }
{
    let most = shorter(budget, MOST_RUNS);
    pack_decided(decide::decide(sheet, f, most, first, second, stack))
}

#[unsafe(no_mangle)]
pub extern "C" fn plumanchor_decide(
    sheet: &[u8],
    budget: usize,
    first: &mut [u8],
    second: &mut [u8],
    stack: &mut [u8],
) -> u64
    ensures stack_value { leaves result first second stack ≡ packed_deciding (decide_call narrow sheet.now (allowed budget) first.old second.old stack.old) }
    ensures told_decide { ToldDecide (truth_of narrow sheet.now) result }
{
    decide(sheet, Format::Narrow, budget, first, second, stack)
}

#[unsafe(no_mangle)]
pub extern "C" fn plumanchor_decide_wide(
    sheet: &[u8],
    budget: usize,
    first: &mut [u8],
    second: &mut [u8],
    stack: &mut [u8],
) -> u64
    ensures stack_value { leaves result first second stack ≡ packed_deciding (decide_call wide sheet.now (allowed budget) first.old second.old stack.old) }
    ensures told_decide { ToldDecide (truth_of wide sheet.now) result }
{
    decide(sheet, Format::Wide, budget, first, second, stack)
}
