// What Response decides before it writes: its refusals, in their order, or all that the writing needs.
ghost use Rattle.std.specs.Prelude.{◌≡◌, ◌≤◌, ◌<◌, length};
ghost use Rattle.std.proofs.Math.Option.{none};
ghost use Rattle.formula.specs.Settle.{may_settle};
ghost use Rattle.sheet.specs.Sheet.{formula};
ghost use Rattle.rows.specs.Layouts.{format_in};
ghost use Rattle.rows.specs.Tables.{ROWS};
ghost use Rattle.elimination.specs.Admission.{Admitted};
ghost use Rattle.response.specs.Inner.ResponsePlan.{in_room, ResponsePlans};

use elimination::admission::{Binding, admit};
use elimination::settling::Put;
use elimination::survey::Survey;
use expand::plan::plan_admitted;
use polarity::table::{SIGNS, fill_signs};
use polarity::value::value_at;
use rows::fit::fits;
use rows::refusals::Refusal;
use rows::{Format, Layout, ROWS};

// The sheet's layout and the constant that Settle puts in, or what is copied of the sheet.
#[derive(Clone, Copy)]
pub enum ResponsePlan {
    Constant(Layout, Put),
    Copy(Layout, Survey),
}

// A plan by which `rows` node rows are written: 13 if they don't fit.
fn in_room(s: Layout, rows: usize, room: usize, p: ResponsePlan) -> Result<ResponsePlan, Refusal>
    requires { (1 ≤ s.variables) × (s.variables ≤ 1024) × (rows ≤ ROWS) }
    ensures { result ≡ in_room s rows room p }
{
    if !fits(s.format, s.variables - 1, rows, room) {
        return Err(Refusal::NoRoom);
    }
    Ok(p)
}

// Decides on a variable that may not be settled: 11 not in the innermost block, then 13.
fn plan_unsettled(
    sheet: &[u8],
    s: Layout,
    ends: &[u16],
    z: Binding,
    room: usize,
    cuts: &mut [u16],
) -> Result<ResponsePlan, Refusal>
    requires admitted { Admitted sheet.now z.variable s z.row ends.now × (ROWS < length cuts.old) }
    requires sheet_value { may_settle z.variable (formula (format_in s) sheet.now) ≡ none }
    ensures { ResponsePlans s.format sheet.now z.variable room cuts.new result }
{
    let (t, w) = plan_admitted(sheet, s, ends, z, cuts)?;
    in_room(t, w.to.relevant.rows, room, ResponsePlan::Copy(t, w))
}

// Decides on a variable that tests 1 to 10 admit. The cuts of what is copied are filled.
fn plan_variable(
    sheet: &[u8],
    s: Layout,
    ends: &[u16],
    z: Binding,
    room: usize,
    cuts: &mut [u16],
) -> Result<ResponsePlan, Refusal>
    requires { Admitted sheet.now z.variable s z.row ends.now × (ROWS < length cuts.old) }
    ensures { ResponsePlans s.format sheet.now z.variable room cuts.new result }
{
    let mut signs = [false; SIGNS];
    fill_signs(sheet, s, &mut signs);
    let Some(value) = value_at(sheet, s, z.row, &signs) else {
        return plan_unsettled(sheet, s, ends, z, room, cuts);
    };
    let put = Put {
        row: z.row,
        variable: z.variable,
        value,
    };
    in_room(s, 1, room, ResponsePlan::Constant(s, put))
}

// Decides what Response for `x` does with a sheet and an output of `room` bytes.
pub fn plan_response(
    sheet: &[u8],
    f: Format,
    x: usize,
    room: usize,
    cuts: &mut [u16],
) -> Result<ResponsePlan, Refusal>
    requires { ROWS < length cuts.old }
    ensures { ResponsePlans f sheet.now x room cuts.new result }
{
    let mut ends = [0u16; ROWS];
    let (s, z) = admit(sheet, f, x, &mut ends)?;
    plan_variable(sheet, s, &ends, z, room, cuts)
}
