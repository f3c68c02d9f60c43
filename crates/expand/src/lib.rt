// Expand: the relevant subtree of an innermost variable gives way to two copies of it, and the tree is tidied ("Expand x"). Execute does
// the same under a ceiling, which a quote gives.
#![tactic(auto)]

ghost use Rattle.std.specs.Prelude.{◌≡◌};
ghost use Rattle.sheet.specs.Operations.{expand_call, execute_call};
ghost use Rattle.sheet.specs.Truthful.{truth_of, TruthfulSheet};
ghost use Rattle.rows.specs.Formats.{format_of};
ghost use Rattle.rows.specs.Layouts.{format_in};
ghost use Rattle.checking.specs.Answers.{wrote};
ghost use Rattle.expand.specs.Inner.ExpandPlan.{ExpandPlanned};

use crate::plan::plan_expand;
use elimination::expanding::expand_into;
use elimination::survey::Survey;
use relevance::cuts::CUTS;
use rows::fit::{fits, sheet_length};
use rows::refusals::Refusal;
use rows::{Format, Layout};

pub mod block;
pub mod plan;
pub mod price;
pub mod quote;

// Carries out a plan: 13 the raw sheet doesn't fit; else it is written to `out` and tidied there.
fn expand_planned(
    sheet: &[u8],
    s: Layout,
    x: usize,
    cuts: &[u16],
    w: Survey,
    out: &mut [u8],
) -> Result<usize, Refusal>
    requires { ExpandPlanned sheet.now x cuts.now s w }
    ensures { wrote result out.new ≡ expand_call (format_in s) sheet.now x out.old }
{
    if !fits(s.format, s.variables - 1, w.to.layout.nodes, out.len()) {
        return Err(Refusal::NoRoom);
    }
    let t = expand_into(sheet, s, x, cuts, w, out);
    Ok(sheet_length(s.format, t.variables, t.nodes))
}

// Expands `x` in a sheet: the new sheet stands at the front of `out` with zeros behind it, and its length is returned; or the call is
// refused with number and place, and `out` is left as it was. The raw sheet is written to `out` and tidied there.
pub fn expand(sheet: &[u8], f: Format, x: usize, out: &mut [u8]) -> Result<usize, Refusal>
    ensures out_after { wrote result out.new ≡ expand_call (format_of f) sheet.now x out.old }
    ensures truthful_sheet { TruthfulSheet (format_of f) (truth_of (format_of f) sheet.now) (wrote result out.new) }
{
    let mut cuts = [0u16; CUTS];
    let (s, w) = plan_expand(sheet, f, x, &mut cuts)?;
    expand_planned(sheet, s, x, &cuts, w, out)
}

// Carries out a quote: as Expand, but 19 if the raw sheet has more node rows than `ceiling`, before its room is tested.
pub fn execute(
    sheet: &[u8],
    f: Format,
    x: usize,
    ceiling: usize,
    out: &mut [u8],
) -> Result<usize, Refusal>
    ensures out_after { wrote result out.new ≡ execute_call (format_of f) sheet.now x ceiling out.old }
    ensures truthful_sheet { TruthfulSheet (format_of f) (truth_of (format_of f) sheet.now) (wrote result out.new) }
{
    let mut cuts = [0u16; CUTS];
    let (s, w) = plan_expand(sheet, f, x, &mut cuts)?;
    if ceiling < w.to.layout.nodes {
        return Err(Refusal::AboveCeiling);
    }
    expand_planned(sheet, s, x, &cuts, w, out)
}
