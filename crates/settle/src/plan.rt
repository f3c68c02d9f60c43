// What Settle decides before it writes: its refusals, in the paper's order, or what is put in.
ghost use Rattle.settle.specs.Inner.SettlePlan.{Admissible, SettlePlans};

use elimination::admission::{Binding, admit};
use elimination::settling::Put;
use polarity::table::{SIGNS, fill_signs};
use polarity::value::value_at;
use rows::fit::sheet_length;
use rows::refusals::Refusal;
use rows::{Format, Layout, ROWS};

// Decides on a variable that tests 1 to 10 admit: 12 may not be settled, 13 no room for the raw sheet.
fn plan_admitted(sheet: &[u8], s: Layout, z: Binding, room: usize) -> Result<(Layout, Put), Refusal>
    requires { Admissible sheet.now z.variable s z.row }
    ensures { SettlePlans s.format sheet.now z.variable room result }
{
    let mut table = [false; SIGNS];
    fill_signs(sheet, s, &mut table);
    let value = value_at(sheet, s, z.row, &table).ok_or(Refusal::NotSettled)?;
    if room < sheet_length(s.format, s.variables - 1, s.nodes) {
        return Err(Refusal::NoRoom);
    }
    let put = Put {
        row: z.row,
        variable: z.variable,
        value,
    };
    Ok((s, put))
}

// Decides what Settle of `x` does with a sheet and an output of `room` bytes: the sheet's layout and what is put in.
pub fn plan_settle(sheet: &[u8], f: Format, x: usize, room: usize) -> Result<(Layout, Put), Refusal>
    ensures { SettlePlans f sheet.now x room result }
{
    let mut ends = [0u16; ROWS];
    let (s, z) = admit(sheet, f, x, &mut ends)?;
    plan_admitted(sheet, s, z, room)
}
