// A variable expanded: its raw sheet is written to an output and tidied there ("Expand x").
ghost use Rattle.std.specs.Prelude.{◌≡◌, ◌*◌, ◌-◌, ◌≤◌, ◌<◌, length};
ghost use Rattle.formula.specs.Expand.{expanded};
ghost use Rattle.sheet.specs.Sheet.{operator_kind, sheet};
ghost use Rattle.sheet.specs.Operations.{padded};
ghost use Rattle.rows.specs.Layouts.{format_in};
ghost use Rattle.rows.specs.Formulas.{Readable, formula_in, layout_for};
ghost use Rattle.rows.specs.Tables.{HIGHEST, NUMBERS};
ghost use Rattle.prefixes.specs.Places.{binding_in};
ghost use Rattle.elimination.specs.Expanding.{draft_of, Expands};

use crate::survey::{Draft, Survey};
use prefixes::is_existential;
use raw::expand::write_raw;
use relevance::variable::Candidate;
use rows::{AND, Layout, NUMBERS, OR};
use substitution::table::fill_both;
use tidying::tidy_in_place;

// The kind of the operator that joins the copies of prefix row `i`'s variable.
fn joint_at(b: &[u8], s: Layout, i: usize) -> u8
    requires { Readable s b.now × (i < s.variables) }
    ensures { result ≡ operator_kind (binding_in s b.now i).quantifier }
{
    if is_existential(b, s, i) { OR } else { AND }
}

// What is expanded of a variable whose relevant subtree and price are known; `ranges` has the row of its first literal.
pub fn draft(b: &[u8], s: Layout, ranges: &[u16], c: Candidate) -> Draft
    requires { Readable s b.now × (c.row < s.variables) × (c.variable ≤ HIGHEST) × (length ranges.now ≡ 2 * NUMBERS) }
    ensures { result ≡ draft_of s b.now ranges.now c }
{
    Draft {
        relevant: c.relevant,
        first: usize::from(ranges[2 * c.variable]),
        raw: c.raw,
        row: c.row,
        variables: s.variables - 1,
        joint: joint_at(b, s, c.row),
    }
}

// Writes the sheet in which `x` is expanded to the front of `out`, with zeros behind it, and returns its layout.
pub fn expand_into(b: &[u8], s: Layout, x: usize, cuts: &[u16], w: Survey, out: &mut [u8]) -> Layout
    requires { Expands s b.now x cuts.now w (length out.old) }
    ensures out_after { out.new ≡ padded (length out.old) (sheet (format_in s) (expanded x (formula_in s b.now))) }
    ensures value { result ≡ layout_for s.format (expanded x (formula_in s b.now)) }
    ensures variables_value { (result.variables ≡ s.variables - 1) × (result.nodes ≤ w.to.layout.nodes) }
{
    let mut tables = [0u16; 2 * NUMBERS];
    fill_both(&mut tables, x);
    write_raw(b, s, &tables, &cuts[..w.cuts], w.to, out);
    tidy_in_place(out, w.to.layout)
}
