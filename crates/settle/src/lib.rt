// Settle: a pure or a unit literal gives the value of a variable, its row goes, and the tree is tidied ("Settle x").
#![tactic(auto)]

ghost use Rattle.std.specs.Prelude.{◌≡◌};
ghost use Rattle.sheet.specs.Operations.{settle_call};
ghost use Rattle.sheet.specs.Truthful.{truth_of, TruthfulSheet};
ghost use Rattle.rows.specs.Formats.{format_of};
ghost use Rattle.checking.specs.Answers.{wrote};

use crate::plan::plan_settle;
use elimination::settling::settle_into;
use rows::Format;
use rows::fit::sheet_length;
use rows::refusals::Refusal;

pub mod plan;

// Settles `x` in a sheet: the new sheet stands at the front of `out` with zeros behind it, and its length is returned; or the call is
// refused with number and place, and `out` is left as it was. The raw sheet is written to `out` and tidied there.
pub fn settle(sheet: &[u8], f: Format, x: usize, out: &mut [u8]) -> Result<usize, Refusal>
    ensures out_after { wrote result out.new ≡ settle_call (format_of f) sheet.now x out.old }
    ensures truthful_sheet { TruthfulSheet (format_of f) (truth_of (format_of f) sheet.now) (wrote result out.new) }
{
    let (s, put) = plan_settle(sheet, f, x, out.len())?;
    let t = settle_into(sheet, s, put, out);
    Ok(sheet_length(f, t.variables, t.nodes))
}
