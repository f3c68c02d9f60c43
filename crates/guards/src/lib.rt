// Guards: the children of a root AND that are to blame for its falsity (N10). Each in turn is left out, for good if Solve still says
// false of the others. A try's rows are written from the sheet into the first work buffer, where the run is entered.
#![tactic(auto)]

ghost use Rattle.std.specs.Prelude.{◌≡◌, ◌≤◌, length};
ghost use Rattle.sheet.specs.Trace.{room};
ghost use Rattle.sheet.specs.Guards.{guards_call};
ghost use Rattle.sheet.specs.Truthful.{TruthfulGuards};
ghost use Rattle.rows.specs.Formats.{format_of};
ghost use Rattle.rows.specs.Layouts.{format_in, size};
ghost use Rattle.checking.specs.Sheets.{Sheet};
ghost use Rattle.guards.specs.Answers.{guarded_answer, leaves};
ghost use Rattle.guards.specs.Inner.Sieves.{Siftable, Said, kept_call, found_call};

use crate::selection::{Selection, write_selection};
use crate::sift::sift;
use rows::bytes::{clear, copy_front};
use rows::fit::shorter;
use rows::refusals::Refusal;
use rows::write::seal;
use rows::{AND, Format, Layout, ROWS};
use solve::{Solved, Verdict, run_raw};
use subtrees::ends::fill_ends;
use subtrees::nodes::kind_at;

pub mod selection;
pub mod sift;

// The initial run's own answer, stopped at a variable or true, with the number settled and the number expanded; or the length of the sheet
// of the kept children and how many runs stopped.
#[derive(Clone, Copy, PartialEq, Eq, Debug)]
pub enum Guarded {
    Stopped(usize, usize, usize),
    True(usize, usize),
    Kept(usize, usize),
}

// After an initial run that said false: sifts the children, and writes the sheet of those kept.
fn keep(sheet: &[u8], s: Layout, out: &mut [u8], first: &mut [u8], second: &mut [u8]) -> Guarded
    requires { Siftable s sheet.now (room first.old second.old) × (size s ≤ length out.old) }
    ensures { record { answer = guarded_answer result; output = out.new } ≡ kept_call s sheet.now out.old (room first.old second.old) }
{
    let mut ends = [0u16; ROWS];
    let mut kept = [0u16; ROWS];
    fill_ends(sheet, s, &mut ends);
    let g = sift(sheet, s, &ends, &mut kept, first, second);
    let count = g.guards;
    let those = Selection {
        guards: count,
        rows: g.rows,
        rest: s.nodes,
    };
    let t = write_selection(sheet, s, &ends, &kept[..count], those, out);
    let length = seal(out, t, t.variables + t.nodes);
    Guarded::Kept(length, g.stops)
}

// An initial run that stops or says true is itself the answer, and the output is cleared.
fn after_run(
    sheet: &[u8],
    s: Layout,
    answer: Solved,
    out: &mut [u8],
    first: &mut [u8],
    second: &mut [u8],
) -> Guarded
    requires { Siftable s sheet.now (room first.old second.old) × (size s ≤ length out.old) × Said s sheet.now (room first.old second.old) answer }
    ensures { record { answer = guarded_answer result; output = out.new } ≡ found_call s sheet.now out.old (room first.old second.old) }
{
    match answer {
        Solved::Stopped(x, settled, expanded) => {
            clear(out, 0);
            Guarded::Stopped(x, settled, expanded)
        }
        Solved::Ended(Verdict::True, settled, expanded) => {
            clear(out, 0);
            Guarded::True(settled, expanded)
        }
        Solved::Ended(Verdict::False, _, _) => keep(sheet, s, out, first, second),
    }
}

// Runs Solve on the whole sheet, and sifts its children if it says false.
fn find(sheet: &[u8], s: Layout, out: &mut [u8], first: &mut [u8], second: &mut [u8]) -> Guarded
    requires { Siftable s sheet.now (room first.old second.old) × (size s ≤ length out.old) }
    ensures { record { answer = guarded_answer result; output = out.new } ≡ found_call s sheet.now out.old (room first.old second.old) }
{
    copy_front(sheet, first);
    let answer = run_raw(first, second, s);
    after_run(sheet, s, answer, out, first, second)
}

// Finds the guards that clash in a sheet that Check accepts, of this layout: 23 the root isn't AND, 13 a buffer shorter than the sheet.
fn guards_checked(
    sheet: &[u8],
    s: Layout,
    out: &mut [u8],
    first: &mut [u8],
    second: &mut [u8],
) -> Result<Guarded, Refusal>
    requires { Sheet s.format sheet.now s }
    ensures { leaves result out.new first.new second.new ≡ guards_call (format_in s) sheet.now out.old first.old second.old }
{
    if kind_at(sheet, s, 0) != AND {
        return Err(Refusal::RootNotAnd);
    }
    let work = shorter(first.len(), second.len());
    if shorter(out.len(), work) < sheet.len() {
        return Err(Refusal::NoRoom);
    }
    let answer = find(sheet, s, out, first, second);
    clear(first, 0);
    clear(second, 0);
    Ok(answer)
}

// Finds the guards that clash in a sheet. The sheet of those kept stands at the front of `out` with zeros behind it, or `out` is all zeros
// if the initial run is itself the answer; both work buffers then hold zeros. Refused, nothing is altered. It takes as many runs of Solve
// as the root has children, and one more.
pub fn guards(
    sheet: &[u8],
    f: Format,
    out: &mut [u8],
    first: &mut [u8],
    second: &mut [u8],
) -> Result<Guarded, Refusal>
    ensures second_after { leaves result out.new first.new second.new ≡ guards_call (format_of f) sheet.now out.old first.old second.old }
    ensures truthful_guards { TruthfulGuards (format_of f) sheet.now (leaves result out.new first.new second.new) }
{
    let s = checking::check(sheet, f)?;
    guards_checked(sheet, s, out, first, second)
}
