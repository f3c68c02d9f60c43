// Tests 1 to 10 of the operations on one variable: Check's, 9 not tidy, 10 the variable is not in the prefix.
ghost use Rattle.std.specs.Prelude.{◌≤◌, length};
ghost use Rattle.rows.specs.Tables.{ROWS};
ghost use Rattle.checking.specs.Sheets.{Sheet};
ghost use Rattle.elimination.specs.Admission.{Admits};

use prefixes::find_variable;
use rows::refusals::Refusal;
use rows::{Format, Layout};
use subtrees::ends::fill_ends;
use tidiness::first_fault;

// A variable and its prefix row.
#[derive(Clone, Copy)]
pub struct Binding {
    pub row: usize,
    pub variable: usize,
}

// Decides on a sheet that Check accepts, and finds the variable with its row.
fn admit_checked(
    sheet: &[u8],
    s: Layout,
    x: usize,
    ends: &mut [u16],
) -> Result<(Layout, Binding), Refusal>
    requires { Sheet s.format sheet.now s × (ROWS ≤ length ends.old) }
    ensures { Admits s.format sheet.now x ends.new result }
{
    fill_ends(sheet, s, ends);
    let fault = first_fault(sheet, s, ends);
    if fault < s.nodes {
        return Err(Refusal::NotTidy(s.variables + fault));
    }
    let Some(row) = find_variable(sheet, s, x) else {
        return Err(Refusal::NotInPrefix);
    };
    Ok((s, Binding { row, variable: x }))
}

// Decides tests 1 to 10 for the variable `x` of a sheet, and fills the table of ends of one that passes: the sheet's layout, and the
// variable with its row.
pub fn admit(
    sheet: &[u8],
    f: Format,
    x: usize,
    ends: &mut [u16],
) -> Result<(Layout, Binding), Refusal>
    requires { ROWS ≤ length ends.old }
    ensures { Admits f sheet.now x ends.new result }
{
    let s = checking::check(sheet, f)?;
    admit_checked(sheet, s, x, ends)
}
