// The search: a run, and where it stops a split of the sheet reached on its first row, each half decided in the same way. The sheet reached
// waits at the front of the stack, and the halves have what is behind it. A frame holds no table: those of a run and of a half are gone before
// the search goes deeper.
ghost use Rattle.std.specs.Prelude.{◌≡◌, suc, ◌+◌, ◌^◌, ◌≤◌, ◌<◌, length};
ghost use Rattle.formula.specs.Decide.{ends_split};
ghost use Rattle.formula.specs.Force.{owner};
ghost use Rattle.sheet.specs.Trace.{room};
ghost use Rattle.rows.specs.Formulas.{prefix_in, Readable};
ghost use Rattle.solve.specs.Inner.Running.{RawReady};
ghost use Rattle.decide.specs.Answers.{outcome_of, decision_of};
ghost use Rattle.decide.specs.Inner.Searching.{Branches, found, branched, one_more, both};

use crate::running::{Ran, run_from};
use crate::waiting::{set_aside, write_half};
use prefixes::is_existential;
use rows::Layout;
use rows::fit::shorter;
use solve::Verdict;

// A verdict, no place left for a sheet that must wait, or the budget spent.
#[derive(Clone, Copy, PartialEq, Eq, Debug)]
pub enum Outcome {
    Decided(Verdict),
    NoPlace,
    Spent,
}

// What was found, and the number of runs.
#[derive(Clone, Copy, PartialEq, Eq, Debug)]
pub struct Decision {
    pub outcome: Outcome,
    pub runs: usize,
}

// A decision after so many runs.
fn after_runs(outcome: Outcome, runs: usize) -> Decision
    ensures { decision_of result ≡ record { outcome = outcome_of outcome; runs = runs } }
{
    Decision { outcome, runs }
}

// The run before a split is counted too.
fn one_more(d: Decision) -> Decision
    requires { d.runs + 1 < 2 ^ 64 }
    ensures { decision_of result ≡ one_more (decision_of d) }
{
    after_runs(d.outcome, d.runs + 1)
}

// The second half's outcome, and the runs of both.
fn both(zero: Decision, one: Decision) -> Decision
    requires { zero.runs + one.runs < 2 ^ 64 }
    ensures { decision_of result ≡ both (decision_of zero) (decision_of one) }
{
    after_runs(one.outcome, zero.runs + one.runs)
}

// Whether the first half ends a split of the sheet at the front of `b`: exists at true, for all at false, any where nothing was decided.
fn ends_early(b: &[u8], t: Layout, zero: Decision) -> bool
    requires { Readable t b.now × (0 < t.variables) }
    ensures { result ≡ ends_split (owner (prefix_in t b.now)) (outcome_of zero.outcome) }
{
    let existential = is_existential(b, t, 0);
    match zero.outcome {
        Outcome::Decided(Verdict::True) => existential,
        Outcome::Decided(Verdict::False) => !existential,
        Outcome::NoPlace => true,
        Outcome::Spent => true,
    }
}

// Searches from the formula whose rows are in the first buffer, within so many runs.
#[cycle(branch_seek)]
pub fn seek(
    first: &mut [u8],
    second: &mut [u8],
    stack: &mut [u8],
    s: Layout,
    budget: usize,
) -> Decision
    requires { RawReady s first.old second.old }
    ensures { decision_of result ≡ found s first.old second.old (length stack.old) budget }
{
    if budget == 0 {
        return after_runs(Outcome::Spent, 0);
    }
    let r = run_from(first, second, s);
    match r {
        Ran::Ended(verdict) => after_runs(Outcome::Decided(verdict), 1),
        Ran::Stopped(t) => {
            let place = shorter(first.len(), second.len());
            if !set_aside(first, t, place, stack) {
                return after_runs(Outcome::NoPlace, 1);
            }
            one_more(branch(first, second, stack, t, budget - 1))
        }
    }
}

// Decides the sheet that waits at the front of the stack by its halves, value 0 first; the second half has the runs that the first one left.
#[cycle(branch_seek)]
fn branch(
    first: &mut [u8],
    second: &mut [u8],
    stack: &mut [u8],
    t: Layout,
    budget: usize,
) -> Decision
    requires { Branches (room first.old second.old) t stack.old }
    ensures { decision_of result ≡ branched (room first.old second.old) t stack.old budget }
{
    let place = shorter(first.len(), second.len());
    let u = write_half(stack, t, false, first);
    let zero = seek(first, second, &mut stack[place..], u, budget);
    if ends_early(stack, t, zero) {
        return zero;
    }
    let w = write_half(stack, t, true, first);
    let one = seek(first, second, &mut stack[place..], w, budget - zero.runs);
    both(zero, one)
}
