// What Reduce decides before it writes: its refusals, in the paper's order.
ghost use Rattle.checking.specs.Sheets.{Sheet};
ghost use Rattle.reduce.specs.Inner.ReducePlan.{ReducePlans};

use crate::profile::has_inner_and;
use checking::check;
use rows::refusals::Refusal;
use rows::{Format, Layout, ROWS};
use subtrees::ends::fill_ends;
use tidiness::first_fault;

// Decides on a sheet that Check accepts: 9 not tidy, 20 not of the clause profile, 13 output shorter than the sheet.
fn plan_checked(sheet: &[u8], s: Layout, room: usize) -> Result<Layout, Refusal>
    requires { Sheet s.format sheet.now s }
    ensures { ReducePlans s.format sheet.now room result }
{
    let mut ends = [0u16; ROWS];
    fill_ends(sheet, s, &mut ends);
    let fault = first_fault(sheet, s, &ends);
    if fault < s.nodes {
        return Err(Refusal::NotTidy(s.variables + fault));
    }
    if has_inner_and(sheet, s) {
        return Err(Refusal::NoClauses);
    }
    if room < sheet.len() {
        return Err(Refusal::NoRoom);
    }
    Ok(s)
}

// Decides what Reduce does with a sheet and an output of `room` bytes: the layout of a sheet that is reduced.
pub fn plan_reduce(sheet: &[u8], f: Format, room: usize) -> Result<Layout, Refusal>
    ensures { ReducePlans f sheet.now room result }
{
    let s = check(sheet, f)?;
    plan_checked(sheet, s, room)
}
