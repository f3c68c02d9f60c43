// Tidy. The rows of a raw sheet are worked on in place, from the last to the first, packed, and made a sheet again.
#![tactic(auto)]

ghost use Rattle.std.specs.Prelude.{◌≡◌, ◌≤◌, length};
ghost use Rattle.formula.specs.Tidy.{tidied};
ghost use Rattle.sheet.specs.Sheet.{formula, sheet};
ghost use Rattle.sheet.specs.Operations.{padded, tidy_call};
ghost use Rattle.sheet.specs.Truthful.{truth_of, TruthfulSheet};
ghost use Rattle.rows.specs.Formats.{format_of};
ghost use Rattle.rows.specs.Layouts.{format_in};
ghost use Rattle.rows.specs.Formulas.{formula_in, layout_for};
ghost use Rattle.checking.specs.Answers.{wrote};
ghost use Rattle.checking.specs.Sheets.{Sheet};
ghost use Rattle.tidying.specs.Limits.{Raw};

use crate::tables::tidy_rows;
use checking::check;
use rows::bytes::copy_front;
use rows::fit::sheet_length;
use rows::refusals::Refusal;
use rows::{Format, Layout};

pub mod operator;
pub mod pack;
pub mod tables;

// Tidies the formula whose rows stand in `b`, and returns the tidied sheet's layout. The sizes need not have been written.
pub fn tidy_in_place(b: &mut [u8], s: Layout) -> Layout
    requires { Raw s b.old }
    ensures b_after { b.new ≡ padded (length b.old) (sheet (format_in s) (tidied (formula_in s b.old))) }
    ensures value { result ≡ layout_for s.format (tidied (formula_in s b.old)) }
    ensures variables_value { (result.variables ≡ s.variables) × (result.nodes ≤ s.nodes) }
{
    tidy_rows(b, s)
}

// Tidies a sheet that Check accepts, of this layout, into an output that is as long at least, and returns the new sheet's layout.
pub fn tidy_into(source: &[u8], s: Layout, out: &mut [u8]) -> Layout
    requires { Sheet s.format source.now s × (length source.now ≤ length out.old) }
    ensures out_after { out.new ≡ padded (length out.old) (sheet (format_in s) (tidied (formula (format_in s) source.now))) }
    ensures value { result ≡ layout_for s.format (tidied (formula (format_in s) source.now)) }
    ensures variables_value { (result.variables ≡ s.variables) × (result.nodes ≤ s.nodes) }
{
    copy_front(source, out);
    tidy_in_place(out, s)
}

// Tidies a sheet that Check accepts, of this layout: 13 output shorter than the sheet.
fn tidy_checked(sheet: &[u8], s: Layout, out: &mut [u8]) -> Result<usize, Refusal>
    requires { Sheet s.format sheet.now s }
    ensures { wrote result out.new ≡ tidy_call (format_in s) sheet.now out.old }
{
    if out.len() < sheet.len() {
        return Err(Refusal::NoRoom);
    }
    let t = tidy_into(sheet, s, out);
    Ok(sheet_length(t.format, t.variables, t.nodes))
}

// Writes the tidied sheet to the front of `out`, with zeros behind it, and returns its length; or refuses the sheet or the output,
// and alters nothing.
pub fn tidy(sheet: &[u8], f: Format, out: &mut [u8]) -> Result<usize, Refusal>
    ensures out_after { wrote result out.new ≡ tidy_call (format_of f) sheet.now out.old }
    ensures truthful_sheet { TruthfulSheet (format_of f) (truth_of (format_of f) sheet.now) (wrote result out.new) }
{
    let s = check(sheet, f)?;
    tidy_checked(sheet, s, out)
}
