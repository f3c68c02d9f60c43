// Clauses (Certificates): an equal question whose matrix is AND of clauses. Every operator but the root and the ORs that are clauses gets a
// name, a new existential variable, with the clauses "name implies the operator of its children's names".
#![tactic(auto)]

ghost use Rattle.std.specs.Prelude.{◌≡◌, true, length};
ghost use Rattle.sheet.specs.Sheet.{sheet};
ghost use Rattle.sheet.specs.Operations.{padded};
ghost use Rattle.sheet.specs.Strategy.{fits_output};
ghost use Rattle.sheet.specs.Clauses.{clauses_of, clauses_call};
ghost use Rattle.sheet.specs.Truthful.{truth_of, TruthfulSheet};
ghost use Rattle.rows.specs.Formats.{format_of};
ghost use Rattle.rows.specs.Layouts.{format_in};
ghost use Rattle.checking.specs.Answers.{wrote};
ghost use Rattle.checking.specs.Sheets.{Sheet};
ghost use Rattle.clauses.specs.Inner.Survey.{Clausable};

use crate::names::{fill_fresh, name_rows};
use crate::survey::{Size, survey};
use crate::write::{write_clauses, write_front};
use checking::check;
use rows::fit::fits;
use rows::refusals::Refusal;
use rows::write::seal;
use rows::{Format, Layout, NUMBERS, ROWS, most_variables};
use substitution::Target;
use subtrees::ends::fill_ends;

pub mod names;
pub mod survey;
pub mod write;

// Writes the clauses, which fit, to the front of `out`, with zeros behind them, and returns their length.
fn clauses_into(
    b: &[u8],
    s: Layout,
    ends: &[u16],
    names: &mut [u16],
    size: Size,
    out: &mut [u8],
) -> usize
    requires { Clausable b.now s ends.now names.old size × (fits_output (format_in s) (length out.old) (clauses_of (format_in s) b.now) ≡ true) }
    ensures out_after { out.new ≡ padded (length out.old) (sheet (format_in s) (clauses_of (format_in s) b.now)) }
    ensures value { result ≡ length (sheet (format_in s) (clauses_of (format_in s) b.now)) }
{
    let f = s.format;
    let count = size.names;
    let mut fresh = [0u16; NUMBERS];
    fill_fresh(b, s, most_variables(f), count, &mut fresh);
    name_rows(&fresh, names);
    let t = Layout {
        format: f,
        variables: s.variables + count,
        nodes: size.rows + 1,
    };
    let at = write_front(b, s, &fresh[..count], size.clauses, out, t);
    let below = Target { layout: t, at };
    write_clauses(b, s, ends, names, out, below);
    seal(out, t, t.variables + t.nodes)
}

// The clauses of a sheet that Check accepts: 18 fewer numbers are left than names, 13 they don't fit the format's rows or the output.
fn clauses_checked(b: &[u8], s: Layout, out: &mut [u8]) -> Result<usize, Refusal>
    requires { Sheet s.format b.now s }
    ensures { wrote result out.new ≡ clauses_call (format_in s) b.now out.old }
{
    let f = s.format;
    let mut ends = [0u16; ROWS];
    fill_ends(b, s, &mut ends);
    let mut names = [0u16; ROWS];
    let size = survey(b, s, &ends, &mut names);
    if most_variables(f) - s.variables < size.names {
        return Err(Refusal::NoNumbersLeft);
    }
    if !fits(f, s.variables + size.names, size.rows + 1, out.len()) {
        return Err(Refusal::NoRoom);
    }
    Ok(clauses_into(b, s, &ends, &mut names, size, out))
}

// Writes an equal question as AND of clauses to the front of `out`, with zeros behind it, and returns its length; or the call is refused
// with number and place, and `out` is left as it was.
pub fn clauses(sheet: &[u8], f: Format, out: &mut [u8]) -> Result<usize, Refusal>
    ensures out_after { wrote result out.new ≡ clauses_call (format_of f) sheet.now out.old }
    ensures truthful_sheet { TruthfulSheet (format_of f) (truth_of (format_of f) sheet.now) (wrote result out.new) }
{
    let s = check(sheet, f)?;
    clauses_checked(sheet, s, out)
}
