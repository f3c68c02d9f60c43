// A run of Solve, and the sheet that it reached.
ghost use Rattle.std.specs.Prelude.{◌≡◌, ◌≤◌, length};
ghost use Rattle.sheet.specs.Format.{header};
ghost use Rattle.rows.specs.Formats.{format_of};
ghost use Rattle.rows.specs.Formulas.{layout_of};
ghost use Rattle.solve.specs.Inner.Running.{RawReady};
ghost use Rattle.decide.specs.Inner.Running.{Runs};

use rows::read::{nodes_at, variables_at};
use rows::{Format, Layout};
use solve::{Solved, Verdict, run_raw};

// How a run ended: with a verdict, or with a sheet of this layout at the front of the first buffer.
#[derive(Clone, Copy, PartialEq, Eq, Debug)]
pub enum Ran {
    Ended(Verdict),
    Stopped(Layout),
}

// The layout of a sheet of this format, by its first bytes.
fn layout_at(b: &[u8], f: Format) -> Layout
    requires { header (format_of f) ≤ length b.now }
    ensures { result ≡ layout_of f b.now }
{
    Layout {
        format: f,
        variables: variables_at(b, f),
        nodes: nodes_at(b, f),
    }
}

// Runs Solve from the formula whose rows are in the first buffer. A run is never refused.
pub fn run_from(first: &mut [u8], second: &mut [u8], s: Layout) -> Ran
    requires { RawReady s first.old second.old }
    ensures { Runs s first.old second.old first.new result }
{
    match run_raw(first, second, s) {
        Solved::Ended(verdict, _, _) => Ran::Ended(verdict),
        Solved::Stopped(_, _, _) => Ran::Stopped(layout_at(first, s.format)),
    }
}
