// Conversion of narrow sheets to the wide format and of wide sheets to the narrow one: the same rows, in numbers of the other width.
#![tactic(auto)]

ghost use Rattle.std.specs.Prelude.{◌≡◌, length, take};
ghost use Rattle.sheet.specs.Format.{narrow, wide};
ghost use Rattle.sheet.specs.Sheet.{sheet};
ghost use Rattle.sheet.specs.Operations.{padded};
ghost use Rattle.sheet.specs.Conversion.{above, beyond, to_wide_call, to_narrow_call};
ghost use Rattle.sheet.specs.Truthful.{truth_of, TruthfulSheet};
ghost use Rattle.rows.specs.Formats.{format_of};
ghost use Rattle.rows.specs.Layouts.{format_in, rows_in};
ghost use Rattle.rows.specs.Formulas.{formula_in, Readable, layout_for};
ghost use Rattle.rows.specs.declared.Format.TheVariants.{Wide};
ghost use Rattle.checking.specs.Answers.{wrote};
ghost use Rattle.checking.specs.Sheets.{Sheet};
ghost use Rattle.conversion.specs.Inner.Rows.{RowsFit, Convertible, ConvertReady, room_call};

use rows::fit::sheet_length;
use rows::read::{argument_at, kind_at};
use rows::refusals::Refusal;
use rows::write::{seal, set_row};
use rows::{Format, Layout, most_nodes, most_variables};

// Writes all rows of a sheet as rows of an output whose numbers may have another width.
fn convert_rows(sheet: &[u8], s: Layout, out: &mut [u8], t: Layout)
    requires { RowsFit s sheet.now t (length out.old) }
    ensures { rows_in t out.new ≡ rows_in s sheet.now }
{
    for r in 0..s.variables + s.nodes {
        set_row(out, t, r, kind_at(sheet, s, r), argument_at(sheet, s, r));
    }
}

// Writes the formula whose rows are in `source` as a sheet of the format `g`, with zeros behind it, and returns its layout.
pub fn convert(source: &[u8], s: Layout, g: Format, out: &mut [u8]) -> Layout
    requires { Convertible s source.now g (length out.old) }
    ensures out_after { out.new ≡ padded (length out.old) (sheet (format_of g) (formula_in s source.now)) }
    ensures value { result ≡ layout_for g (formula_in s source.now) }
{
    let t = Layout { format: g, ..s };
    convert_rows(source, s, out, t);
    seal(out, t, s.variables + s.nodes);
    t
}

// Whether one of the quantifier rows has a number above `most`.
fn has_above(sheet: &[u8], s: Layout, most: usize) -> bool
    requires { Readable s sheet.now }
    ensures { result ≡ above most (take s.variables (rows_in s sheet.now)) }
{
    for r in 0..s.variables {
        if most < argument_at(sheet, s, r) {
            return true;
        }
    }
    false
}

// Whether a sheet that Check accepts has a size or a number above the limits of the format `g`. Every literal's number is bound, so it is
// enough to look at the quantifier rows.
fn is_beyond(sheet: &[u8], s: Layout, g: Format) -> bool
    requires { Sheet s.format sheet.now s }
    ensures { result ≡ beyond (format_in s) (format_of g) sheet.now }
{
    let variables = most_variables(g);
    variables < s.variables || most_nodes(g) < s.nodes || has_above(sheet, s, variables)
}

// Converts a sheet to the format `g`, within whose limits it is: 13 output shorter than its sheet there.
fn convert_within(sheet: &[u8], s: Layout, g: Format, out: &mut [u8]) -> Result<usize, Refusal>
    requires { ConvertReady s sheet.now g }
    ensures { wrote result out.new ≡ room_call (format_in s) (format_of g) sheet.now out.old }
{
    let length = sheet_length(g, s.variables, s.nodes);
    if out.len() < length {
        return Err(Refusal::NoRoom);
    }
    convert(sheet, s, g, out);
    Ok(length)
}

// Writes a narrow sheet's rows as a wide sheet to the front of `out`, with zeros behind it, and returns its length; or refuses the sheet
// or the output, and alters nothing.
pub fn to_wide(sheet: &[u8], out: &mut [u8]) -> Result<usize, Refusal>
    ensures out_after { wrote result out.new ≡ to_wide_call sheet.now out.old }
    ensures truthful_sheet { TruthfulSheet wide (truth_of narrow sheet.now) (wrote result out.new) }
{
    let s = checking::check(sheet, Format::Narrow)?;
    convert_within(sheet, s, Format::Wide, out)
}

// Converts a wide sheet that Check accepts, of this layout, to the narrow format: 24 a number or size above the narrow limits; 13.
fn to_narrow_checked(sheet: &[u8], s: Layout, out: &mut [u8]) -> Result<usize, Refusal>
    requires { Sheet Wide sheet.now s }
    ensures { wrote result out.new ≡ to_narrow_call sheet.now out.old }
{
    if is_beyond(sheet, s, Format::Narrow) {
        return Err(Refusal::NotNarrow);
    }
    convert_within(sheet, s, Format::Narrow, out)
}

// Writes a wide sheet's rows as a narrow sheet to the front of `out`, with zeros behind it, and returns its length; or refuses the sheet
// or the output, and alters nothing.
pub fn to_narrow(sheet: &[u8], out: &mut [u8]) -> Result<usize, Refusal>
    ensures out_after { wrote result out.new ≡ to_narrow_call sheet.now out.old }
    ensures truthful_sheet { TruthfulSheet narrow (truth_of wide sheet.now) (wrote result out.new) }
{
    let s = checking::check(sheet, Format::Wide)?;
    to_narrow_checked(sheet, s, out)
}
