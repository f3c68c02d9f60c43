// A variable settled: the raw sheet is written to an output and tidied there ("Settle x").
ghost use Rattle.std.specs.Prelude.{◌≡◌, ◌-◌, ◌≤◌, ◌<◌, length};
ghost use Rattle.sheet.specs.Sheet.{sheet};
ghost use Rattle.sheet.specs.Operations.{padded};
ghost use Rattle.rows.specs.Layouts.{format_in};
ghost use Rattle.rows.specs.Formulas.{formula_in, layout_for};
ghost use Rattle.rows.specs.Tables.{HIGHEST, NUMBERS};
ghost use Rattle.elimination.specs.Steps.{Puts, settled_by};

use polarity::table::FEW_NUMBERS;
use raw::settle::write_settled;
use rows::{Layout, NUMBERS};
use substitution::table::fill;
use tidying::tidy_in_place;

// A variable with its prefix row and the value that is put in for it.
#[derive(Clone, Copy)]
pub struct Put {
    pub row: usize,
    pub variable: usize,
    pub value: bool,
}

// How many entries the table for a variable has: as many as a narrow sheet has numbers, since the table is filled anew in every step, or as
// many as a wide one has. Then nearly all rows give the same answer to whether their number is in the table, and the processor predicts it.
fn entries_for(x: usize) -> usize
    requires { x ≤ HIGHEST }
    ensures { (x < result) × (result ≤ NUMBERS) }
{
    if x < FEW_NUMBERS {
        FEW_NUMBERS
    } else {
        NUMBERS
    }
}

// Writes the settled sheet to the front of `out`, with zeros behind it, and returns its layout.
pub fn settle_into(b: &[u8], s: Layout, p: Put, out: &mut [u8]) -> Layout
    requires { Puts s b.now p (length out.old) }
    ensures out_after { out.new ≡ padded (length out.old) (sheet (format_in s) (settled_by p (formula_in s b.now))) }
    ensures value { result ≡ layout_for s.format (settled_by p (formula_in s b.now)) }
    ensures variables_value { (result.variables ≡ s.variables - 1) × (result.nodes ≤ s.nodes) }
{
    let mut table = [0u16; NUMBERS];
    let entries = entries_for(p.variable);
    let changes = &mut table[..entries];
    fill(changes, p.variable, p.value);
    write_settled(b, s, changes, p.row, out);
    let raw = Layout {
        format: s.format,
        variables: s.variables - 1,
        nodes: s.nodes,
    };
    tidy_in_place(out, raw)
}
