// Claim: which sheet is refused, with number and place; or the length of the claim's sheet.
ghost use Rattle.std.specs.Prelude.{◌≡◌};
ghost use Rattle.sheet.specs.Format.{narrow, wide};
ghost use Rattle.sheet.specs.Strategy.{claim_call};
ghost use Rattle.rows.specs.Formats.{format_of};
ghost use Rattle.claim.specs.Answers.{side_of, claimed_answer};
ghost use Rattle.packing.specs.Returned.{returned};
ghost use Rattle.capi_strategy.specs.Claims.{side_of_kind, packed_claimed};
ghost use Rattle.capi_strategy.specs.Returned.{packed_claiming};
ghost use Rattle.capi_strategy.specs.Told.{ToldClaim};

use claim::{ClaimRefusal, Side};
use packing::{pack, pack_refusal};
use rows::Format;

// A side by its quantifier's kind, as a sheet has it: 1 exists, any other for all.
fn named_side(kind: usize) -> Side
    ensures { side_of result ≡ side_of_kind kind }
{
    if kind == 1 {
        return Side::Exists;
    }
    Side::ForAll
}

// What Claim answers: refusal number, the sheet refused as the word, and place; or the length of the claim's sheet.
#[tactic(auto, unfolding(crate::specs::Claims::packed_claimed))]
fn pack_claimed(answer: Result<usize, ClaimRefusal>) -> u64
    ensures { result ≡ packed_claimed (claimed_answer answer) }
{
    match answer {
        Ok(length) => pack(0, 0, 0, length as u64),
        Err(ClaimRefusal::Output(refusal)) => pack_refusal(refusal),
        Err(ClaimRefusal::Sheet(refusal)) => pack(refusal.number(), 1, refusal.place(), 0),
        Err(ClaimRefusal::Strategy(refusal)) => pack(refusal.number(), 2, refusal.place(), 0),
    }
}

fn claim(sheet: &[u8], f: Format, side: usize, strategy: &[u8], out: &mut [u8]) -> u64
    ensures out_after { returned result out.new ≡ packed_claiming (claim_call (format_of f) sheet.now (side_of_kind side) strategy.now out.old) }
    ensures told_claim { ToldClaim (format_of f) sheet.now (side_of_kind side) strategy.now result out.new }
{
    pack_claimed(claim::claim(sheet, f, named_side(side), strategy, out))
}

#[unsafe(no_mangle)]
pub extern "C" fn plumanchor_claim(
    sheet: &[u8],
    side: usize,
    strategy: &[u8],
    out: &mut [u8],
) -> u64
    ensures out_after { returned result out.new ≡ packed_claiming (claim_call narrow sheet.now (side_of_kind side) strategy.now out.old) }
    ensures told_claim { ToldClaim narrow sheet.now (side_of_kind side) strategy.now result out.new }
{
    claim(sheet, Format::Narrow, side, strategy, out)
}

#[unsafe(no_mangle)]
pub extern "C" fn plumanchor_claim_wide(
    sheet: &[u8],
    side: usize,
    strategy: &[u8],
    out: &mut [u8],
) -> u64
    ensures out_after { returned result out.new ≡ packed_claiming (claim_call wide sheet.now (side_of_kind side) strategy.now out.old) }
    ensures told_claim { ToldClaim wide sheet.now (side_of_kind side) strategy.now result out.new }
{
    claim(sheet, Format::Wide, side, strategy, out)
}
