// What the step decides before it looks at the output: 1 to 11 and 18, in the paper's order, or all that the writing needs.
ghost use Rattle.std.specs.Prelude.{◌≡◌, ◌*◌, ◌<◌, length, replicate};
ghost use Rattle.rows.specs.Formulas.{formula_in};
ghost use Rattle.rows.specs.Tables.{ROWS, NUMBERS};
ghost use Rattle.subtrees.specs.Ends.{Indexed};
ghost use Rattle.dependence.specs.Blocks.{Located};
ghost use Rattle.elimination.specs.Admission.{Admitted};
ghost use Rattle.outer.specs.Inner.OuterPlan.{Finds, OuterPlans};

use crate::draft::draft_chosen;
use dependence::Target;
use dependence::answer::{count_dependents, lowest_dependent};
use dependence::block::one_block_out;
use dependence::closure::fill_dependents;
use elimination::admission::admit;
use elimination::survey::{Survey, survey_draft};
use occurrences::fill_occurrences;
use renaming::numbers::fill_tables;
use rows::refusals::Refusal;
use rows::{Format, Layout, NUMBERS, ROWS, most_variables};
use sets::WORDS;

// The variable and the sheet's layout; how many variables are copied, and the lowest of them; what is written.
#[derive(Clone, Copy)]
pub struct Copying {
    pub variable: usize,
    pub from: Layout,
    pub copied: usize,
    pub lowest: usize,
    pub survey: Survey,
}

// Whether a variable is one block out; if so, an empty set is filled with the variables that depend on it.
fn find_dependents(sheet: &[u8], t: Target, ends: &[u16], set: &mut [u64]) -> bool
    requires { Indexed t.layout sheet.now ends.now × Located t.layout sheet.now t × (set.old ≡ replicate 17 0) }
    ensures { Finds t.variable (formula_in t.layout sheet.now) set.new result }
{
    let s = t.layout;
    let mut ranges = [0u16; 2 * NUMBERS];
    let mut next = [0u16; ROWS];
    fill_occurrences(sheet, s, &mut ranges, &mut next);
    if !one_block_out(sheet, &ranges, t) {
        return false;
    }
    fill_dependents(sheet, t, ends, &ranges, &next, set);
    true
}

// Decides on a variable that tests 1 to 10 admit: 11 not one block out, 18 fewer unused numbers are left than variables to copy. The
// tables of the copies and the cuts are filled.
fn plan_admitted(
    sheet: &[u8],
    t: Target,
    ends: &[u16],
    tables: &mut [u16],
    cuts: &mut [u16],
) -> Result<Copying, Refusal>
    requires { Admitted sheet.now t.variable t.layout t.row ends.now × (length tables.old ≡ 2 * NUMBERS) × (ROWS < length cuts.old) }
    ensures { OuterPlans t.layout.format sheet.now t.variable tables.new cuts.new result }
{
    let s = t.layout;
    let mut set = [0u64; WORDS];
    if !find_dependents(sheet, t, ends, &mut set) {
        return Err(Refusal::WrongBlock);
    }
    let copied = count_dependents(&set);
    let highest = most_variables(s.format);
    if highest - s.variables < copied {
        return Err(Refusal::NoNumbersLeft);
    }
    let lowest = lowest_dependent(&set);
    fill_tables(sheet, s, &set, highest, t.variable, tables);
    let mut next = [0u16; ROWS];
    let variables = s.variables - 1 + copied;
    let d = draft_chosen(sheet, t, ends, &tables[NUMBERS..], variables, &mut next);
    let w = survey_draft(sheet, s, ends, &next, d, cuts);
    Ok(Copying {
        variable: t.variable,
        from: s,
        copied,
        lowest,
        survey: w,
    })
}

// Decides what the step does with `x` in a sheet, whatever the output.
pub fn plan_outer(
    sheet: &[u8],
    f: Format,
    x: usize,
    tables: &mut [u16],
    cuts: &mut [u16],
) -> Result<Copying, Refusal>
    requires { (length tables.old ≡ 2 * NUMBERS) × (ROWS < length cuts.old) }
    ensures { OuterPlans f sheet.now x tables.new cuts.new result }
{
    let mut ends = [0u16; ROWS];
    let (s, z) = admit(sheet, f, x, &mut ends)?;
    let t = Target {
        layout: s,
        row: z.row,
        variable: z.variable,
    };
    plan_admitted(sheet, t, &ends, tables, cuts)
}
