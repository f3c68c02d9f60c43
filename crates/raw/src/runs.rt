// The children of an operator by runs: those that hold a chosen literal and the others.
ghost use Rattle.std.specs.Prelude.{map, ◌+◌};
ghost use Rattle.rows.specs.Layouts.{Fits};
ghost use Rattle.substitution.specs.Changes.{changed_row};
ghost use Rattle.substitution.specs.Output.{Laid};
ghost use Rattle.raw.specs.Expansions.{runs_in, head_row, below, Runnable};

use rows::Layout;
use substitution::write::{write_copy, write_row};
use substitution::{Span, Target};

// The operator's row above a copy: its kind and how many children it has, and the row of the output that it is written to.
#[derive(Clone, Copy)]
pub struct Head {
    pub kind: u8,
    pub children: usize,
    pub layout: Layout,
    pub at: usize,
}

// Writes every other run, from the first of the cuts on, changed by the table.
pub fn write_runs(
    b: &[u8],
    s: Layout,
    table: &[u16],
    cuts: &[u16],
    out: &mut [u8],
    to: Target,
) -> usize
    requires { Runnable s b.now cuts.now to.layout out.old to.at }
    ensures { Laid to.layout out.old out.new to.at result (map (changed_row table.now) (runs_in s b.now cuts.now)) }
{
    let Target { layout: t, mut at } = to;
    let v = s.variables;
    for i in 0..cuts.len() / 2 {
        let run = Span {
            from: v + cuts[2 * i] as usize,
            to: v + cuts[2 * i + 1] as usize,
        };
        let here = Target { layout: t, at };
        at = write_copy(b, s, table, run, out, here);
    }
    at
}

// Writes an operator's row, and below it every other run, from the first of the cuts on, changed by the table.
pub fn write_below(
    b: &[u8],
    s: Layout,
    table: &[u16],
    cuts: &[u16],
    out: &mut [u8],
    head: Head,
) -> usize
    requires { Runnable s b.now cuts.now head.layout out.old (head.at + 1) × Fits s head.children }
    ensures { Laid head.layout out.old out.new head.at result (below (head_row head) table.now (runs_in s b.now cuts.now)) }
{
    let t = head.layout;
    let here = Target {
        layout: t,
        at: head.at,
    };
    let at = write_row(out, here, head.kind, head.children);
    let below = Target { layout: t, at };
    write_runs(b, s, table, cuts, out, below)
}
