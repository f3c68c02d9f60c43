// Reduce: from each clause the universal literals go that have no existential literal of that clause after them in the prefix, and the
// tree is tidied (N8). A literal that goes becomes OR of nothing in its row, which tidying takes away, so no row moves before that.
#![tactic(auto)]

ghost use Rattle.std.specs.Prelude.{◌≡◌, length};
ghost use Rattle.formula.specs.Reduce.{reduced};
ghost use Rattle.sheet.specs.Sheet.{formula, sheet};
ghost use Rattle.sheet.specs.Operations.{padded, reduce_call};
ghost use Rattle.sheet.specs.Truthful.{truth_of, TruthfulSheet};
ghost use Rattle.rows.specs.Formats.{format_of};
ghost use Rattle.rows.specs.Layouts.{format_in};
ghost use Rattle.checking.specs.Answers.{wrote};
ghost use Rattle.reduce.specs.Inner.ReducePlan.{ReducePlanned};

use crate::clauses::blank_clauses;
use crate::places::fill_places;
use crate::plan::plan_reduce;
use rows::bytes::copy_front;
use rows::fit::sheet_length;
use rows::refusals::Refusal;
use rows::{Format, Layout, NUMBERS};
use tidying::tidy_in_place;

pub mod clauses;
pub mod places;
pub mod plan;
pub mod profile;

// Writes the reduced sheet to the front of `out`, with zeros behind it, and returns its length.
fn reduce_into(source: &[u8], s: Layout, out: &mut [u8]) -> usize
    requires { ReducePlanned s.format source.now (length out.old) s }
    ensures out_after { out.new ≡ padded (length out.old) (sheet (format_in s) (reduced (formula (format_in s) source.now))) }
    ensures value { result ≡ length (sheet (format_in s) (reduced (formula (format_in s) source.now))) }
{
    let mut places = [0u16; NUMBERS];
    fill_places(source, s, &mut places);
    copy_front(source, out);
    blank_clauses(source, s, &places, out);
    let t = tidy_in_place(out, s);
    sheet_length(t.format, t.variables, t.nodes)
}

// Reduces a sheet: the new sheet stands at the front of `out` with zeros behind it, and its length is returned; or the call is refused
// with number and place, and `out` is left as it was.
pub fn reduce(sheet: &[u8], f: Format, out: &mut [u8]) -> Result<usize, Refusal>
    ensures out_after { wrote result out.new ≡ reduce_call (format_of f) sheet.now out.old }
    ensures truthful_sheet { TruthfulSheet (format_of f) (truth_of (format_of f) sheet.now) (wrote result out.new) }
{
    let s = plan_reduce(sheet, f, out.len())?;
    Ok(reduce_into(sheet, s, out))
}
