// Split: the sheet for one list of values of the first variables. Their rows go, and their literals become constants, as Force has it.
#![tactic(auto)]

ghost use Rattle.std.specs.Prelude.{◌≡◌, ◌≤◌, length};
ghost use Rattle.sheet.specs.Sheet.{formula, sheet};
ghost use Rattle.sheet.specs.Operations.{padded};
ghost use Rattle.sheet.specs.Force.{values_of};
ghost use Rattle.sheet.specs.Split.{under, split_call};
ghost use Rattle.sheet.specs.Truthful.{TruthfulSplit};
ghost use Rattle.rows.specs.Formats.{format_of};
ghost use Rattle.rows.specs.Layouts.{format_in};
ghost use Rattle.rows.specs.Formulas.{Readable, prefix_in};
ghost use Rattle.rows.specs.Tables.{NUMBERS};
ghost use Rattle.checking.specs.Answers.{wrote};
ghost use Rattle.checking.specs.Sheets.{Sheet};
ghost use Rattle.force.specs.Inner.Moves.{Numbered, moves};
ghost use Rattle.split.specs.Inner.{Splittable};

use force::are_values;
use force::moves::{fill_moves, write_behind};
use rows::fit::sheet_length;
use rows::refusals::Refusal;
use rows::write::seal;
use rows::{Format, Layout, NUMBERS};
use substitution::table::keep_all;

// Makes the table that puts the values in for the variables of the first rows.
fn fill_values(b: &[u8], s: Layout, values: &[u8], table: &mut [u16])
    requires { Readable s b.now × Numbered s b.now × (length values.now ≤ s.variables) × (length table.old ≡ NUMBERS) }
    ensures { table.new ≡ moves (values_of values.now) (prefix_in s b.now) }
{
    match values.split_last() {
        None => keep_all(table),
        Some((last, front)) => fill_moves(b, s, front, *last == 1, table),
    }
}

// Writes the sheet under the values to the front of `out`, with zeros behind it, and returns its length.
fn split_into(b: &[u8], s: Layout, values: &[u8], out: &mut [u8]) -> usize
    requires { Splittable s b.now values.now (length out.old) }
    ensures out_after { out.new ≡ padded (length out.old) (sheet (format_in s) (under values.now (formula (format_in s) b.now))) }
    ensures value { result ≡ length (sheet (format_in s) (under values.now (formula (format_in s) b.now))) }
{
    let mut table = [0u16; NUMBERS];
    fill_values(b, s, values, &mut table);
    let t = write_behind(b, s, &table, values.len(), out);
    seal(out, t, t.variables + t.nodes)
}

// Splits a sheet that Check accepts, of this layout: 21 a value isn't 0 or 1, 22 more values than V, 13 no room for the sheet.
fn split_checked(b: &[u8], s: Layout, values: &[u8], out: &mut [u8]) -> Result<usize, Refusal>
    requires { Sheet s.format b.now s }
    ensures { wrote result out.new ≡ split_call (format_in s) b.now values.now out.old }
{
    if !are_values(values) {
        return Err(Refusal::BadValue);
    }
    if s.variables < values.len() {
        return Err(Refusal::TooManyValues);
    }
    if out.len() < sheet_length(s.format, s.variables - values.len(), s.nodes) {
        return Err(Refusal::NoRoom);
    }
    Ok(split_into(b, s, values, out))
}

// Writes the sheet for values of the first variables (a byte each, 0 or 1) to the front of `out`, with zeros behind it, and returns its
// length; or the call is refused with number and place, and `out` is left as it was.
pub fn split(sheet: &[u8], f: Format, values: &[u8], out: &mut [u8]) -> Result<usize, Refusal>
    ensures out_after { wrote result out.new ≡ split_call (format_of f) sheet.now values.now out.old }
    ensures truthful_split { TruthfulSplit (format_of f) sheet.now values.now (wrote result out.new) }
{
    let s = checking::check(sheet, f)?;
    split_checked(sheet, s, values, out)
}
