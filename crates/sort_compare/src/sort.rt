// Sort: the sheet is copied, and its node rows are written in their order, once.
ghost use Rattle.std.specs.Prelude.{◌≡◌, ◌++◌, ◌≤◌, length, take};
ghost use Rattle.formula.specs.Order.{sort, sorted};
ghost use Rattle.sheet.specs.Sheet.{tree_rows, formula, sheet};
ghost use Rattle.sheet.specs.Operations.{padded};
ghost use Rattle.sheet.specs.Order.{sort_call};
ghost use Rattle.sheet.specs.Truthful.{truth_of, TruthfulSheet};
ghost use Rattle.rows.specs.Formats.{format_of};
ghost use Rattle.rows.specs.Layouts.{format_in, rows_in, Room};
ghost use Rattle.rows.specs.Formulas.{matrix_in, Readable};
ghost use Rattle.checking.specs.Answers.{wrote};
ghost use Rattle.checking.specs.Sheets.{Sheet};
ghost use Rattle.tree_order.specs.Tables.{picked_rows, Numbers};

use checking::check;
use rows::bytes::copy_front;
use rows::read::{argument_at, kind_at};
use rows::refusals::Refusal;
use rows::write::{seal, set_row};
use rows::{Format, Layout, ROWS};
use tree_order::table::sort_rows;

// Writes the node rows of a sheet that a table picks, behind the prefix rows of an output of the same layout.
fn write_nodes(source: &[u8], s: Layout, at: &[u16], out: &mut [u8])
    requires { Readable s source.now × Numbers s at.now × (length at.now ≡ s.nodes) × Room s (length out.old) }
    ensures { rows_in s out.new ≡ take s.variables (rows_in s out.old) ++ picked_rows s source.now at.now }
{
    for (r, node) in at.iter().enumerate() {
        let from = s.variables + usize::from(*node);
        set_row(
            out,
            s,
            s.variables + r,
            kind_at(source, s, from),
            argument_at(source, s, from),
        );
    }
}

// Writes the sorted tree's rows behind the prefix rows, by a table of as many numbers as there are node rows.
fn write_sorted(source: &[u8], s: Layout, at: &mut [u16], out: &mut [u8])
    requires { Readable s source.now × (length at.old ≡ s.nodes) × Room s (length out.old) }
    ensures { rows_in s out.new ≡ take s.variables (rows_in s out.old) ++ tree_rows (sort (matrix_in s source.now)) }
{
    sort_rows(source, s, at);
    write_nodes(source, s, at, out);
}

// Sorts a sheet that Check accepts, of this layout, into an output that is as long at least, and returns the sheet's length.
pub fn sort_into(source: &[u8], s: Layout, out: &mut [u8]) -> usize
    requires { Sheet s.format source.now s × (length source.now ≤ length out.old) }
    ensures out_after { out.new ≡ padded (length out.old) (sheet (format_in s) (sorted (formula (format_in s) source.now))) }
    ensures value { result ≡ length (sheet (format_in s) (sorted (formula (format_in s) source.now))) }
{
    let n = s.nodes;
    let mut table = [0u16; ROWS];
    copy_front(source, out);
    write_sorted(source, s, &mut table[..n], out);
    seal(out, s, s.variables + s.nodes)
}

// Sorts a sheet that Check accepts, of this layout: 13 output shorter than the sheet.
fn sort_checked(sheet: &[u8], s: Layout, out: &mut [u8]) -> Result<usize, Refusal>
    requires { Sheet s.format sheet.now s }
    ensures { wrote result out.new ≡ sort_call (format_in s) sheet.now out.old }
{
    if out.len() < sheet.len() {
        return Err(Refusal::NoRoom);
    }
    Ok(sort_into(sheet, s, out))
}

// Writes the sheet with all children in order to the front of `out`, with zeros behind it, and returns its length; or refuses the sheet
// or the output, and alters nothing.
pub fn sort(sheet: &[u8], f: Format, out: &mut [u8]) -> Result<usize, Refusal>
    ensures out_after { wrote result out.new ≡ sort_call (format_of f) sheet.now out.old }
    ensures truthful_sheet { TruthfulSheet (format_of f) (truth_of (format_of f) sheet.now) (wrote result out.new) }
{
    let s = check(sheet, f)?;
    sort_checked(sheet, s, out)
}
