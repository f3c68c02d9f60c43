// Universal reduction clause by clause. Decisions are read from the sheet, and what goes is written to a copy of its rows.
ghost use Rattle.std.specs.Prelude.{◌≡◌, cond, ◌+◌, ◌≤◌, ◌<◌, eqb, leb, length, set};
ghost use Rattle.std.proofs.Math.Seq.{slice};
ghost use Rattle.sheet.specs.Sheet.{formula_rows};
ghost use Rattle.rows.specs.Layouts.{total, rows_in, Room};
ghost use Rattle.rows.specs.Formulas.{prefix_in, formula_in};
ghost use Rattle.rows.specs.Tables.{ROWS, HIGHEST};
ghost use Rattle.reduce.specs.Inner.Places.{Placed, row_of, Bound};
ghost use Rattle.reduce.specs.Inner.Clauses.{last_existential, goes_row, blank_row, Literals, Copy, Blanks, Clausal, blanked};

use crate::places::{behind_at, place_at};
use prefixes::is_existential;
use rows::read::{children_at, kind_at};
use rows::write::set_row;
use rows::{AND, Layout, NEGATIVE, OR};

// The prefix row behind that of the last existential literal of a clause, or 0 if the clause has none.
fn last_existential(b: &[u8], s: Layout, places: &[u16], from: usize, to: usize) -> usize
    requires { Placed s b.now places.now × Literals s b.now from to }
    ensures { result ≡ last_existential (prefix_in s b.now) (slice from to (rows_in s b.now)) }
{
    let mut last = 0;
    for r in from..to {
        last = last.max(behind_at(b, s, places, r));
    }
    last
}

// Whether the literal at row `r` goes: it is universal, and no existential literal of its clause is after it in the prefix; `last` is the
// prefix row behind the last one.
fn goes_at(b: &[u8], s: Layout, places: &[u16], r: usize, last: usize) -> bool
    requires { Placed s b.now places.now × Bound s b.now r }
    ensures { result ≡ goes_row (prefix_in s b.now) last (row_of s b.now r) }
{
    let i = place_at(b, s, places, r);
    if is_existential(b, s, i) {
        return false;
    }
    last <= i + 1
}

// Makes the literal at row `r` of the copy OR of nothing, if it goes.
fn blank_literal(b: &[u8], s: Layout, places: &[u16], r: usize, last: usize, out: &mut [u8])
    requires { Placed s b.now places.now × Bound s b.now r × Copy s b.now out.old r }
    ensures { rows_in s out.new ≡ set (rows_in s out.old) r (blank_row (prefix_in s b.now) last (row_of s b.now r)) }
{
    if goes_at(b, s, places, r, last) {
        set_row(out, s, r, OR, 0);
    }
}

// Blanks the literals that go among the rows of a clause.
fn blank_literals(b: &[u8], s: Layout, places: &[u16], from: usize, to: usize, out: &mut [u8])
    requires { Placed s b.now places.now × Literals s b.now from to × Copy s b.now out.old from }
    ensures { Blanks s b.now out.old out.new from to }
{
    let last = last_existential(b, s, places, from, to);
    for r in from..to {
        blank_literal(b, s, places, r, last, out);
    }
}

// The row of the first clause: behind a root that is AND, and else the root itself, as a single clause.
fn first_clause(b: &[u8], s: Layout) -> usize
    requires { Room s (length b.now) × (s.variables < total s) }
    ensures { result ≡ s.variables + cond (eqb (row_of s b.now s.variables).kind 5) 1 0 }
{
    if kind_at(b, s, s.variables) == AND {
        return s.variables + 1;
    }
    s.variables
}

// The row of the first literal of the clause at row `r`: its own, or the one behind an OR.
fn first_literal(b: &[u8], s: Layout, r: usize) -> usize
    requires { Room s (length b.now) × (r < total s) × (total s ≤ ROWS + HIGHEST) }
    ensures { result ≡ r + cond (leb (row_of s b.now r).kind 4) 0 1 }
{
    if kind_at(b, s, r) <= NEGATIVE {
        return r;
    }
    r + 1
}

// Blanks the literals that go, clause after clause, in a copy of the sheet's rows.
pub fn blank_clauses(b: &[u8], s: Layout, places: &[u16], out: &mut [u8])
    requires { Clausal s b.now places.now × Room s (length out.old) × (rows_in s out.old ≡ rows_in s b.now) }
    ensures { rows_in s out.new ≡ formula_rows (blanked (formula_in s b.now)) }
{
    let end = s.variables + s.nodes;
    let mut r = first_clause(b, s);
    while r < end {
        let next = r + 1 + children_at(b, s, r);
        blank_literals(b, s, places, first_literal(b, s, r), next, out);
        r = next;
    }
}
