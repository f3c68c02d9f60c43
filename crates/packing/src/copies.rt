// The answer of the step one block out (N6).
ghost use Rattle.std.specs.Prelude.{◌≡◌};
ghost use Rattle.outer.specs.Answers.{outcome_answer};
ghost use Rattle.packing.specs.Copies.{packed_copied};

use crate::{pack, pack_refusal};
use outer::Copied;
use rows::refusals::Refusal;

// Refusal number and place; or the new sheet's length, how many variables are copied and the lowest of their old numbers.
#[tactic(auto, unfolding(crate::specs::Copies::packed_copied))]
pub fn pack_copied(answer: Result<Copied, Refusal>) -> u64
    ensures { result ≡ packed_copied (outcome_answer answer) }
{
    match answer {
        Ok(c) => pack(
            0,
            0,
            c.length,
            (c.copied % 65536) as u64 + 65536 * ((c.lowest % 65536) as u64),
        ),
        Err(refusal) => pack_refusal(refusal),
    }
}
