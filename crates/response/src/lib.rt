// Response: the function of a variable, by which its owner can answer what the others are, as a sheet of the prefix without its row.
#![tactic(auto)]

ghost use Rattle.std.specs.Prelude.{◌≡◌};
ghost use Rattle.sheet.specs.Strategy.{response_call};
ghost use Rattle.sheet.specs.Truthful.{TruthfulResponse};
ghost use Rattle.rows.specs.Formats.{format_of};
ghost use Rattle.checking.specs.Answers.{wrote};

use crate::function::{constant_into, function_into};
use crate::plan::{ResponsePlan, plan_response};
use relevance::cuts::CUTS;
use rows::Format;
use rows::fit::sheet_length;
use rows::refusals::Refusal;

pub mod function;
pub mod plan;

// The function of `x` in a sheet: its sheet stands at the front of `out` with zeros behind it, and its length is returned; or the call is
// refused with number and place, and `out` is left as it was. The raw function is written to `out` and tidied there.
pub fn response(sheet: &[u8], f: Format, x: usize, out: &mut [u8]) -> Result<usize, Refusal>
    ensures out_after { wrote result out.new ≡ response_call (format_of f) sheet.now x out.old }
    ensures truthful_response { TruthfulResponse (format_of f) sheet.now x (wrote result out.new) }
{
    let mut cuts = [0u16; CUTS];
    let t = match plan_response(sheet, f, x, out.len(), &mut cuts)? {
        ResponsePlan::Constant(s, put) => constant_into(sheet, s, put, out),
        ResponsePlan::Copy(s, w) => function_into(sheet, s, x, &cuts, w, out),
    };
    Ok(sheet_length(f, t.variables, t.nodes))
}
