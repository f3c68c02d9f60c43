// Certify: a derivation on words, judged step by step against a sheet.
#![tactic(auto)]

ghost use Rattle.std.specs.Prelude.{◌≡◌, [], ◌/◌, length};
ghost use Rattle.formula.specs.Certificates.{valid_steps, ends_empty, certified};
ghost use Rattle.sheet.specs.Certificates.{steps_said, side_for, certify_call};
ghost use Rattle.sheet.specs.Truthful.{truth_of, TruthfulCertify};
ghost use Rattle.rows.specs.Formats.{format_of};
ghost use Rattle.rows.specs.Formulas.{prefix_in, formula_in};
ghost use Rattle.resolution.specs.Steps.{FirstUnderived};
ghost use Rattle.certify.specs.Answers.{judgement, certified_answer};
ghost use Rattle.certify.specs.Inner.Judging.{Judged};

use crate::initial::{Claim, first_unsettled};
use crate::ranks::fill_ranks;
use jumps::build;
use resolution::first_underived;
use resolution::words::{CODES, part_of};
use rows::refusals::Refusal;
use rows::{Format, Layout};

pub mod initial;
pub mod ranks;

// What Certify answers: the verdict; or how many steps are valid, if they show none.
#[derive(Clone, Copy, PartialEq, Eq, Debug)]
pub enum Certified {
    Certain(bool),
    Uncertain(usize),
}

// The first derived step that doesn't follow, or the number of steps.
fn count_derived(sheet: &[u8], s: Layout, verdict: bool, heads: &[u32], codes: &[u32]) -> usize
    requires { Judged s sheet.now }
    ensures { FirstUnderived (side_for verdict) (prefix_in s sheet.now) heads.now codes.now result }
{
    let mut own = [0u16; 2048];
    let mut other = [0u16; 2048];
    fill_ranks(sheet, s, !verdict, &mut own);
    fill_ranks(sheet, s, verdict, &mut other);
    first_underived(heads, codes, &own, &other)
}

// How many steps are valid from the first on.
fn count_valid(sheet: &[u8], s: Layout, verdict: bool, heads: &[u32], codes: &[u32]) -> usize
    requires { Judged s sheet.now }
    ensures { result ≡ valid_steps (side_for verdict) (formula_in s sheet.now) [] (steps_said heads.now codes.now) }
{
    let steps = count_derived(sheet, s, verdict, heads, codes);
    let mut high = [0u16; rows::ROWS];
    let mut low = [0u16; rows::ROWS];
    build(sheet, s, &mut high, &mut low);
    let q = Claim {
        layout: s,
        verdict,
        steps,
    };
    first_unsettled(sheet, q, &high, &low, heads, codes)
}

// Whether there are steps, `n` of them, and the last constraint is empty.
fn ends_empty(heads: &[u32], codes: &[u32], n: usize) -> bool
    requires { n ≡ length heads.now / 4 }
    ensures { result ≡ ends_empty (steps_said heads.now codes.now) }
{
    if n == 0 {
        return false;
    }
    let p = part_of(heads, codes, n - 1, CODES);
    p.to <= p.from
}

// Judges the steps for a sheet that Check accepts.
fn judge(sheet: &[u8], s: Layout, verdict: bool, heads: &[u32], codes: &[u32]) -> Certified
    requires { Judged s sheet.now }
    ensures { judgement result ≡ certified (side_for verdict) (formula_in s sheet.now) (steps_said heads.now codes.now) }
{
    let n = count_valid(sheet, s, verdict, heads, codes);
    if n == heads.len() / 4 && ends_empty(heads, codes, n) {
        return Certified::Certain(verdict);
    }
    Certified::Uncertain(n)
}

// Judges a derivation of a verdict, true by cubes and false by clauses, from a sheet: certain, or uncertain with the number of the first step
// that isn't valid (of all steps, if only the last constraint isn't empty), or refused with number and place, 1 to 8. Any words are taken.
pub fn certify(
    sheet: &[u8],
    f: Format,
    verdict: bool,
    heads: &[u32],
    codes: &[u32],
) -> Result<Certified, Refusal>
    ensures result_value { certified_answer result ≡ certify_call (format_of f) sheet.now (side_for verdict) heads.now codes.now }
    ensures truthful_certify { TruthfulCertify (truth_of (format_of f) sheet.now) (certified_answer result) }
{
    let s = checking::check(sheet, f)?;
    Ok(judge(sheet, s, verdict, heads, codes))
}
