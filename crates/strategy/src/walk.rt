// Solve's run once more: before each step the pair of its variable, if it is of the side, is drafted.
ghost use Rattle.std.specs.Prelude.{◌+◌, ◌≤◌, length};
ghost use Rattle.sheet.specs.Trace.{room};
ghost use Rattle.rows.specs.Tables.{ROWS};
ghost use Rattle.rows.specs.Formulas.{formula_in};
ghost use Rattle.solve.specs.Inner.Running.{Open};
ghost use Rattle.strategy.specs.Inner.Drafts.{Drafted};
ghost use Rattle.strategy.specs.Inner.Walking.{side_of, next_rows, NextReady, TurnReady, Turned, WalkReady, Walked};

use crate::draft::{draft_left, draft_pair};
use next_function::next_function;
use prefixes::is_existential;
use rows::fit::{sheet_length, shorter};
use rows::{Layout, ROWS};
use solve::State;
use solve::step::{Step, take_step};
use solve::verdicts::decide;
use substitution::Target;

// The side whose pairs are drafted, exists or for all, and the row that is written next.
#[derive(Clone, Copy)]
pub struct Draft {
    pub exists: bool,
    pub to: Target,
}

// Drafts the pair of the variable that Solve takes next, if it is of the side. Its function is written to `part` first.
fn draft_next(
    b: &[u8],
    s: Layout,
    ends: &mut [u16],
    part: &mut [u8],
    out: &mut [u8],
    d: Draft,
) -> usize
    requires { NextReady s d b.now (length part.old) (length out.old) × (ROWS ≤ length ends.old) }
    ensures drafted { Drafted d.to.layout out.old out.new d.to.at result (next_rows (side_of d) (formula_in s b.now)) }
    ensures upper_bound { result ≤ d.to.at + 8194 }
{
    let to = d.to;
    let n = next_function(b, s, ends, part);
    if is_existential(b, s, n.row) != d.exists {
        return to.at;
    }
    draft_pair(part, n.sheet, n.variable, out, to)
}

// A turn on a sheet that isn't decided: the next state, and the row behind the pair of the step's variable. The function goes to the part of
// the second buffer that the sheet itself needs.
fn open_turn(
    first: &mut [u8],
    second: &mut [u8],
    s: State,
    ends: &mut [u16],
    out: &mut [u8],
    d: Draft,
) -> Option<(State, usize)>
    requires { TurnReady (room first.old second.old) s d first.old second.old out.old × Open s first.old × (ROWS ≤ length ends.old) }
    ensures { Turned (room first.old second.old) s d first.old first.new out.old out.new result }
{
    let t = s.sheet;
    let need = sheet_length(t.format, t.variables, t.nodes);
    let at = draft_next(first, t, ends, &mut second[..need], out, d);
    let room = shorter(first.len(), second.len());
    match take_step(first, second, room, s, ends) {
        Step::Next(next) => Some((next, at)),
        Step::Ended(_) => None,
        Step::Stopped(_) => None,
    }
}

// A turn from the state `s`, whose sheet is in the first buffer; none if that is decided. The table of ends is lent.
fn take_turn(
    first: &mut [u8],
    second: &mut [u8],
    s: State,
    ends: &mut [u16],
    out: &mut [u8],
    d: Draft,
) -> Option<(State, usize)>
    requires { TurnReady (room first.old second.old) s d first.old second.old out.old × (ROWS ≤ length ends.old) }
    ensures { Turned (room first.old second.old) s d first.old first.new out.old out.new result }
{
    match decide(first, s.sheet) {
        Some(_) => None,
        None => open_turn(first, second, s, ends, out, d),
    }
}

// Takes turns until the sheet is decided, and drafts the pairs of the rows that are then left.
pub fn walk(first: &mut [u8], second: &mut [u8], start: State, out: &mut [u8], d: Draft) -> usize
    requires { WalkReady (room first.old second.old) start d first.old second.old out.old }
    ensures { Walked (room first.old second.old) start d first.old first.new out.old out.new result }
{
    let mut s = start;
    let mut at = d.to.at;
    let mut ends = [0u16; ROWS];
    loop {
        let to = Target {
            layout: d.to.layout,
            at,
        };
        let draft = Draft {
            exists: d.exists,
            to,
        };
        match take_turn(first, second, s, &mut ends, out, draft) {
            None => return draft_left(first, s.sheet, d.exists, out, to),
            Some((next, row)) => {
                s = next;
                at = row;
            }
        }
    }
}
