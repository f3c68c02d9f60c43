// Join.
ghost use Rattle.std.specs.Prelude.{◌≡◌};
ghost use Rattle.sheet.specs.Format.{narrow, wide};
ghost use Rattle.sheet.specs.Join.{join_call};
ghost use Rattle.rows.specs.Formats.{format_of};
ghost use Rattle.join.specs.Answers.{known_in, join_answer};
ghost use Rattle.capi_decide.specs.Packed.{known_word, packed_joined};
ghost use Rattle.capi_decide.specs.Told.{ToldJoin};

use packing::{pack, pack_refusal};
use rows::Format;
use rows::refusals::Refusal;

// The word of what is known: 1 true, 0 false, 2 unknown.
fn word_for(known: Option<bool>) -> usize
    ensures { result ≡ known_word (known_in known) }
{
    match known {
        Some(value) => value as usize,
        None => 2,
    }
}

// What Join answers: refusal number and place, or the word.
#[tactic(auto, unfolding(crate::specs::Packed::packed_joined))]
fn pack_joined(answer: Result<Option<bool>, Refusal>) -> u64
    ensures { result ≡ packed_joined (join_answer answer) }
{
    match answer {
        Ok(known) => pack(0, word_for(known), 0, 0),
        Err(refusal) => pack_refusal(refusal),
    }
}

fn join(sheet: &[u8], f: Format, k: usize, answers: &[u8]) -> u64
    ensures value { result ≡ packed_joined (join_call (format_of f) sheet.now k answers.now) }
    ensures told_join { ToldJoin (format_of f) sheet.now k answers.now result }
{
    pack_joined(join::join(sheet, f, k, answers))
}

#[unsafe(no_mangle)]
pub extern "C" fn plumanchor_join(sheet: &[u8], k: usize, answers: &[u8]) -> u64
    ensures value { result ≡ packed_joined (join_call narrow sheet.now k answers.now) }
    ensures told_join { ToldJoin narrow sheet.now k answers.now result }
{
    join(sheet, Format::Narrow, k, answers)
}

#[unsafe(no_mangle)]
pub extern "C" fn plumanchor_join_wide(sheet: &[u8], k: usize, answers: &[u8]) -> u64
    ensures value { result ≡ packed_joined (join_call wide sheet.now k answers.now) }
    ensures told_join { ToldJoin wide sheet.now k answers.now result }
{
    join(sheet, Format::Wide, k, answers)
}
