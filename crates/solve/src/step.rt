// One step of Solve: the lowest-numbered variable that may be settled, or else the cheapest of the innermost block expanded.
ghost use Rattle.std.specs.Prelude.{◌≡◌, ◌≤◌, length, take};
ghost use Rattle.sheet.specs.Operations.{padded};
ghost use Rattle.rows.specs.Tables.{ROWS};
ghost use Rattle.subtrees.specs.Ends.{Indexed};
ghost use Rattle.choice.specs.Settling.{Unsettled};
ghost use Rattle.solve.specs.Inner.Running.{RunReady, Open, Settles, Fetchable, long_in, Brings, Stepped};

use crate::verdicts::decide;
use crate::{State, Verdict};
use choice::expand::choose_expand;
use choice::settle::choose_settle;
use elimination::expanding::{draft, expand_into};
use elimination::settling::{Put, settle_into};
use elimination::survey::survey_draft;
use occurrences::fill_occurrences;
use relevance::cuts::CUTS;
use rows::bytes::{clear, copy_front};
use rows::fit::{fits, sheet_length};
use rows::{Layout, NUMBERS, ROWS, most_variables};
use subtrees::ends::fill_ends;

// Decided, stopped at a variable, or on to the next state.
#[derive(Clone, Copy)]
pub enum Step {
    Ended(Verdict),
    Stopped(usize),
    Next(State),
}

// Copies the sheet of `bytes` bytes at the front of the second buffer to the first, and clears the first behind it.
fn fetch(first: &mut [u8], second: &[u8], bytes: usize)
    requires { Fetchable bytes first.old second.now }
    ensures { first.new ≡ padded (length first.old) (take bytes second.now) }
{
    copy_front(&second[..bytes], first);
    clear(first, bytes);
}

// Copies the sheet of layout `to` from the front of the second buffer to the first. The first has a sheet of layout `from` and zeros behind
// it, so only the bytes of that sheet are cleared.
fn bring(first: &mut [u8], second: &[u8], from: Layout, to: Layout)
    requires { Brings from to first.old second.now }
    ensures { first.new ≡ padded (length first.old) (take (long_in from to) second.now) }
{
    let f = from.format;
    let bytes = sheet_length(f, to.variables, to.nodes);
    let part = bytes.max(sheet_length(f, from.variables, from.nodes));
    fetch(&mut first[..part], second, bytes);
}

// Settles a variable with its value. The raw sheet is lent only the part of the second buffer that it needs, so that no more is cleared.
fn settle_step(first: &mut [u8], second: &mut [u8], room: usize, s: State, p: Put) -> Step
    requires { RunReady room s first.old second.old × Open s first.old × Settles s first.old p }
    ensures { Stepped room s first.old second.old first.new second.new result }
{
    let t = s.sheet;
    let need = sheet_length(t.format, t.variables - 1, t.nodes);
    let sheet = settle_into(first, t, p, &mut second[..need]);
    bring(first, second, t, sheet);
    Step::Next(State {
        sheet,
        settled: s.settled + 1,
        expanded: s.expanded,
    })
}

// Expands the cheapest variable of the innermost block, if its raw sheet fits.
fn expand_step(first: &mut [u8], second: &mut [u8], room: usize, s: State, ends: &[u16]) -> Step
    requires { RunReady room s first.old second.old × Open s first.old × Unsettled s.sheet first.old × Indexed s.sheet first.old ends.now }
    ensures { Stepped room s first.old second.old first.new second.new result }
{
    let t = s.sheet;
    let f = t.format;
    let mut ranges = [0u16; 2 * NUMBERS];
    let mut next = [0u16; ROWS];
    fill_occurrences(first, t, &mut ranges, &mut next);
    let c = choose_expand(first, t, ends, &ranges, &next);
    if !fits(f, t.variables - 1, c.raw, room) {
        return Step::Stopped(c.variable);
    }
    let mut cuts = [0u16; CUTS];
    let d = draft(first, t, &ranges, c);
    let w = survey_draft(first, t, ends, &next, d, &mut cuts);
    let need = sheet_length(f, t.variables - 1, c.raw);
    let sheet = expand_into(first, t, c.variable, &cuts, w, &mut second[..need]);
    bring(first, second, t, sheet);
    Step::Next(State {
        sheet,
        settled: s.settled,
        expanded: s.expanded + 1,
    })
}

// Takes the next step on a sheet that isn't decided. The table of ends is lent: it is filled anew for each sheet that is expanded.
fn open_step(first: &mut [u8], second: &mut [u8], room: usize, s: State, ends: &mut [u16]) -> Step
    requires { RunReady room s first.old second.old × Open s first.old × (ROWS ≤ length ends.old) }
    ensures { Stepped room s first.old second.old first.new second.new result }
{
    let t = s.sheet;
    if let Some(c) = choose_settle(first, t, most_variables(t.format)) {
        let p = Put {
            row: c.row,
            variable: c.variable,
            value: c.value,
        };
        return settle_step(first, second, room, s, p);
    }
    fill_ends(first, t, ends);
    expand_step(first, second, room, s, ends)
}

// One step from the state `s`, whose sheet is in the first buffer.
pub fn take_step(
    first: &mut [u8],
    second: &mut [u8],
    room: usize,
    s: State,
    ends: &mut [u16],
) -> Step
    requires { RunReady room s first.old second.old × (ROWS ≤ length ends.old) }
    ensures { Stepped room s first.old second.old first.new second.new result }
{
    match decide(first, s.sheet) {
        Some(verdict) => Step::Ended(verdict),
        None => open_step(first, second, room, s, ends),
    }
}
