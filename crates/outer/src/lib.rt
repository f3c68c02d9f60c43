// Expansion of a universal variable one block out (N6): the subtree that its literals and those of all depending variables choose gives
// way to two copies of it, of which the second has new variables, and the tree is tidied.
#![tactic(auto)]

ghost use Rattle.std.specs.Prelude.{◌≡◌, length};
ghost use Rattle.sheet.specs.Sheet.{sheet};
ghost use Rattle.sheet.specs.Operations.{padded};
ghost use Rattle.sheet.specs.Truthful.{truth_of, TruthfulSheet};
ghost use Rattle.rows.specs.Formats.{format_of};
ghost use Rattle.rows.specs.Layouts.{format_in};
ghost use Rattle.outer.specs.Answers.{outcome_answer, length_alone, outer_written};
ghost use Rattle.outer.specs.Inner.OuterPlan.{OuterPlanned, Fitting, copied_formula};

use crate::plan::{Copying, plan_outer};
use crate::writing::write_outer;
use relevance::cuts::CUTS;
use rows::fit::{fits, sheet_length};
use rows::refusals::Refusal;
use rows::{Format, NUMBERS};
use tidying::tidy_in_place;

pub mod chain;
pub mod draft;
pub mod plan;
pub mod writing;

// The new sheet's length, how many variables are copied, and the lowest (old) number among them, 0 if there is none.
#[derive(Clone, Copy, PartialEq, Eq, Debug)]
pub struct Copied {
    pub length: usize,
    pub copied: usize,
    pub lowest: usize,
}

// Writes the new sheet to the front of `out`, with zeros behind it, and returns its length.
fn outer_into(b: &[u8], tables: &[u16], cuts: &[u16], w: Copying, out: &mut [u8]) -> usize
    requires { Fitting b.now tables.now cuts.now w (length out.old) }
    ensures out_after { out.new ≡ padded (length out.old) (sheet (format_in w.from) (copied_formula b.now w)) }
    ensures value { result ≡ length (sheet (format_in w.from) (copied_formula b.now w)) }
{
    let s = w.from;
    let e = w.survey.to;
    write_outer(b, s, tables, &cuts[..w.survey.cuts], e, out);
    let t = tidy_in_place(out, e.layout);
    sheet_length(t.format, t.variables, t.nodes)
}

// Carries out a plan: 13 the raw sheet doesn't fit; else it is written to `out` and tidied there.
fn outer_planned(
    sheet: &[u8],
    tables: &[u16],
    cuts: &[u16],
    w: Copying,
    out: &mut [u8],
) -> Result<Copied, Refusal>
    requires { OuterPlanned sheet.now tables.now cuts.now w }
    ensures { record { answer = outcome_answer result; output = out.new } ≡ outer_written (format_in w.from) sheet.now w.variable out.old }
{
    let raw = w.survey.to.layout;
    if !fits(w.from.format, raw.variables, raw.nodes, out.len()) {
        return Err(Refusal::NoRoom);
    }
    Ok(Copied {
        length: outer_into(sheet, tables, cuts, w, out),
        copied: w.copied,
        lowest: w.lowest,
    })
}

// Expands the universal variable `x` one block out in a sheet: the new sheet stands at the front of `out` with zeros behind it, and its
// length, the number of variables copied and the lowest of them are returned; or the call is refused with number and place, and `out`
// is left as it was. The raw sheet is written to `out` and tidied there.
pub fn outer(sheet: &[u8], f: Format, x: usize, out: &mut [u8]) -> Result<Copied, Refusal>
    ensures out_after { record { answer = outcome_answer result; output = out.new } ≡ outer_written (format_of f) sheet.now x out.old }
    ensures truthful_sheet { TruthfulSheet (format_of f) (truth_of (format_of f) sheet.now) (length_alone (record { answer = outcome_answer result; output = out.new })) }
{
    let mut tables = [0u16; 2 * NUMBERS];
    let mut cuts = [0u16; CUTS];
    let w = plan_outer(sheet, f, x, &mut tables, &mut cuts)?;
    outer_planned(sheet, &tables, &cuts, w, out)
}
