// The function of the variable that Solve takes next: the lowest-numbered one that may be settled, or else the cheapest of the innermost
// block. It is written as a sheet of its own, before the step is made.
#![tactic(auto)]

ghost use Rattle.std.specs.Prelude.{◌≤◌, length};
ghost use Rattle.rows.specs.Tables.{ROWS};
ghost use Rattle.subtrees.specs.Ends.{Indexed};
ghost use Rattle.choice.specs.Settling.{Unsettled};
ghost use Rattle.next_function.specs.Next.{Choosable, Answers};

use choice::expand::choose_expand;
use choice::settle::choose_settle;
use elimination::expanding::draft;
use elimination::settling::Put;
use elimination::survey::survey_draft;
use occurrences::fill_occurrences;
use relevance::cuts::CUTS;
use response::function::{constant_into, function_into};
use rows::{Layout, NUMBERS, ROWS, most_variables};
use subtrees::ends::fill_ends;

// The variable with its prefix row, and the layout of its function's sheet.
#[derive(Clone, Copy)]
pub struct NextFunction {
    pub row: usize,
    pub variable: usize,
    pub sheet: Layout,
}

// Writes the function of the variable that is expanded next, where none may be settled.
fn expanded_function(b: &[u8], s: Layout, ends: &[u16], out: &mut [u8]) -> NextFunction
    requires { Choosable s b.now (length out.old) × Unsettled s b.now × Indexed s b.now ends.now }
    ensures { Answers s b.now (length out.old) result out.new }
{
    let mut ranges = [0u16; 2 * NUMBERS];
    let mut next = [0u16; ROWS];
    fill_occurrences(b, s, &mut ranges, &mut next);
    let c = choose_expand(b, s, ends, &ranges, &next);
    let mut cuts = [0u16; CUTS];
    let d = draft(b, s, &ranges, c);
    let w = survey_draft(b, s, ends, &next, d, &mut cuts);
    NextFunction {
        row: c.row,
        variable: c.variable,
        sheet: function_into(b, s, c.variable, &cuts, w, out),
    }
}

// Writes the function of the variable that Solve takes next to the front of `out`, with zeros behind it. The table of ends is lent.
pub fn next_function(b: &[u8], s: Layout, ends: &mut [u16], out: &mut [u8]) -> NextFunction
    requires { Choosable s b.now (length out.old) × (ROWS ≤ length ends.old) }
    ensures { Answers s b.now (length out.old) result out.new }
{
    if let Some(c) = choose_settle(b, s, most_variables(s.format)) {
        let p = Put {
            row: c.row,
            variable: c.variable,
            value: c.value,
        };
        return NextFunction {
            row: c.row,
            variable: c.variable,
            sheet: constant_into(b, s, p, out),
        };
    }
    fill_ends(b, s, ends);
    expanded_function(b, s, ends, out)
}
