// What Expand decides before it looks at a ceiling or the output: the quote's refusals, in the paper's order, or all that the writing
// needs.
ghost use Rattle.std.specs.Prelude.{◌<◌, length};
ghost use Rattle.rows.specs.Tables.{ROWS};
ghost use Rattle.elimination.specs.Admission.{Admitted};
ghost use Rattle.expand.specs.Inner.ExpandPlan.{ExpandPlans};

use crate::price::find_price;
use elimination::admission::{Binding, admit};
use elimination::expanding::draft;
use elimination::survey::{Survey, survey_draft};
use rows::refusals::Refusal;
use rows::{Format, Layout, NUMBERS, ROWS};

// Decides on a variable that tests 1 to 10 admit: 11 not in the innermost block. The cuts of an innermost one are filled.
pub fn plan_admitted(
    sheet: &[u8],
    s: Layout,
    ends: &[u16],
    z: Binding,
    cuts: &mut [u16],
) -> Result<(Layout, Survey), Refusal>
    requires { Admitted sheet.now z.variable s z.row ends.now × (ROWS < length cuts.old) }
    ensures { ExpandPlans s.format sheet.now z.variable cuts.new result }
{
    let mut ranges = [0u16; 2 * NUMBERS];
    let mut next = [0u16; ROWS];
    let c = find_price(sheet, s, ends, z, &mut ranges, &mut next).ok_or(Refusal::WrongBlock)?;
    let d = draft(sheet, s, &ranges, c);
    Ok((s, survey_draft(sheet, s, ends, &next, d, cuts)))
}

// Decides what Expand of `x` does with a sheet, whatever the output: the sheet's layout and what is written.
pub fn plan_expand(
    sheet: &[u8],
    f: Format,
    x: usize,
    cuts: &mut [u16],
) -> Result<(Layout, Survey), Refusal>
    requires { ROWS < length cuts.old }
    ensures { ExpandPlans f sheet.now x cuts.new result }
{
    let mut ends = [0u16; ROWS];
    let (s, z) = admit(sheet, f, x, &mut ends)?;
    plan_admitted(sheet, s, &ends, z, cuts)
}
