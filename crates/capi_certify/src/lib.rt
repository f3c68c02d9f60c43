// Certify and Clauses for callers in C and Rust, thin over the proved operations, in an archive of their own. Each is packed once, for any
// format, and exported by a name for narrow sheets and one for wide ones. A verdict is handed in as a number: 0 false, any other true.
#![tactic(auto)]

ghost use Rattle.std.specs.Prelude.{◌≡◌};
ghost use Rattle.sheet.specs.Format.{narrow, wide};
ghost use Rattle.sheet.specs.Certificates.{certify_call};
ghost use Rattle.sheet.specs.Truthful.{truth_of};
ghost use Rattle.rows.specs.Formats.{format_of};
ghost use Rattle.certify.specs.Answers.{certified_answer};
ghost use Rattle.capi_certify.specs.Packed.{side_numbered, packed_certified};
ghost use Rattle.capi_certify.specs.Told.{ToldCertify};

use certify::Certified;
use packing::{pack, pack_refusal};
use rows::Format;
use rows::refusals::Refusal;

pub mod clausing;

// What Certify answers: refusal number and place; or the verdict; or the word 2 and how many steps are valid.
#[tactic(auto, unfolding(crate::specs::Packed::packed_certified))]
fn pack_certified(answer: Result<Certified, Refusal>) -> u64
    ensures { result ≡ packed_certified (certified_answer answer) }
{
    match answer {
        Ok(Certified::Certain(verdict)) => pack(0, verdict as usize, 0, 0),
        Ok(Certified::Uncertain(step)) => pack(0, 2, 0, step as u64),
        Err(refusal) => pack_refusal(refusal),
    }
}

fn certify(sheet: &[u8], f: Format, verdict: usize, heads: &[u32], codes: &[u32]) -> u64
    ensures value { result ≡ packed_certified (certify_call (format_of f) sheet.now (side_numbered verdict) heads.now codes.now) }
    ensures told_certify { ToldCertify (truth_of (format_of f) sheet.now) result }
{
    pack_certified(certify::certify(sheet, f, verdict != 0, heads, codes))
}

#[unsafe(no_mangle)]
pub extern "C" fn plumanchor_certify(
    sheet: &[u8],
    verdict: usize,
    heads: &[u32],
    codes: &[u32],
) -> u64
    ensures value { result ≡ packed_certified (certify_call narrow sheet.now (side_numbered verdict) heads.now codes.now) }
    ensures told_certify { ToldCertify (truth_of narrow sheet.now) result }
{
    certify(sheet, Format::Narrow, verdict, heads, codes)
}

#[unsafe(no_mangle)]
pub extern "C" fn plumanchor_certify_wide(
    sheet: &[u8],
    verdict: usize,
    heads: &[u32],
    codes: &[u32],
) -> u64
    ensures value { result ≡ packed_certified (certify_call wide sheet.now (side_numbered verdict) heads.now codes.now) }
    ensures told_certify { ToldCertify (truth_of wide sheet.now) result }
{
    certify(sheet, Format::Wide, verdict, heads, codes)
}
