// Force's answer (N9).
ghost use Rattle.std.specs.Prelude.{◌≡◌};
ghost use Rattle.sheet.specs.Sheet.{quantifier_kind};
ghost use Rattle.force.specs.Answers.{turn_of, outcome_of, forced_answer};
ghost use Rattle.packing.specs.Panel.{packed_outcome, packed_forced};

use crate::{pack, pack_refusal};
use rows::refusals::Refusal;

// A turn by its quantifier's kind: 1 exists, 2 for all.
fn kind_of(turn: force::Turn) -> usize
    ensures { result ≡ quantifier_kind (turn_of turn) }
{
    match turn {
        force::Turn::Exists => 1,
        force::Turn::ForAll => 2,
    }
}

#[tactic(auto, unfolding(crate::specs::Panel::packed_outcome))]
fn pack_outcome(turn: usize, outcome: force::Outcome) -> u64
    ensures { result ≡ packed_outcome turn (outcome_of outcome) }
{
    match outcome {
        force::Outcome::Neither => pack(0, 0, turn, 0),
        force::Outcome::Zero => pack(0, 1, turn, 0),
        force::Outcome::One => pack(0, 2, turn, 0),
        force::Outcome::Both => pack(0, 3, turn, 0),
        force::Outcome::Stopped(x) => pack(0, 4, turn, x as u64),
    }
}

// What Force answers: refusal number and place; or a word for the outcome, the turn and the variable stopped at.
#[tactic(auto, unfolding(crate::specs::Panel::packed_forced))]
pub fn pack_forced(answer: Result<force::Forced, Refusal>) -> u64
    ensures { result ≡ packed_forced (forced_answer answer) }
{
    match answer {
        Ok(panel) => pack_outcome(kind_of(panel.turn), panel.outcome),
        Err(refusal) => pack_refusal(refusal),
    }
}
