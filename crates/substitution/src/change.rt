// What a row becomes in a copy, by a table: a literal what the table says of its variable, every other row itself.
ghost use Rattle.std.specs.Prelude.{◌≡◌, ◌≤◌, ◌<◌, length, get_or};
ghost use Rattle.sheet.specs.Format.{row};
ghost use Rattle.rows.specs.Layouts.{total, rows_in, Room};
ghost use Rattle.substitution.specs.Changes.{chosen_row, changed_row};
ghost use Rattle.substitution.specs.Output.{Within, Stays, Between};

use crate::table::entry;
use crate::{PUT_TRUE, Span};
use rows::read::{argument_at, kind_at};
use rows::{AND, Layout, NEGATIVE, NUMBERS, OR, POSITIVE};

// Whether row `r` is a literal that changes. Its argument is looked up first: few arguments change, so the kind is seldom read.
fn is_changed(b: &[u8], s: Layout, table: &[u16], r: usize) -> bool
    requires { Room s (length b.now) × (r < total s) }
    ensures { result ≡ chosen_row table.now (get_or (rows_in s b.now) r (row 0 0)) }
{
    let v = argument_at(b, s, r);
    if entry(table, v) == v {
        return false;
    }
    let kind = kind_at(b, s, r);
    if kind < POSITIVE {
        return false;
    }
    kind <= NEGATIVE
}

// The kind that row `r` has in the copy: of a variable put in, AND of nothing where the literal is true and OR of nothing where not.
pub fn new_kind(b: &[u8], s: Layout, table: &[u16], r: usize) -> u8
    requires { Room s (length b.now) × (r < total s) }
    ensures { result ≡ (changed_row table.now (get_or (rows_in s b.now) r (row 0 0))).kind }
{
    let kind = kind_at(b, s, r);
    if !is_changed(b, s, table, r) {
        return kind;
    }
    let e = entry(table, argument_at(b, s, r));
    if e < NUMBERS {
        return kind;
    }
    if (kind == POSITIVE) == (e == usize::from(PUT_TRUE)) {
        AND
    } else {
        OR
    }
}

// The argument that row `r` has in the copy.
pub fn new_argument(b: &[u8], s: Layout, table: &[u16], r: usize) -> usize
    requires { Room s (length b.now) × (r < total s) }
    ensures { result ≡ (changed_row table.now (get_or (rows_in s b.now) r (row 0 0))).argument }
{
    let v = argument_at(b, s, r);
    if !is_changed(b, s, table, r) {
        return v;
    }
    let e = entry(table, v);
    if e < NUMBERS {
        return e;
    }
    0
}

// The first row of `span` that is changed, or the row behind the span.
fn first_changed(b: &[u8], s: Layout, table: &[u16], span: Span) -> usize
    requires { Room s (length b.now) × Within span s }
    ensures { (span.from ≤ result) × (result ≤ span.to) × Stays s b.now table.now span.from result }
{
    for r in span.from..span.to {
        if is_changed(b, s, table, r) {
            return r;
        }
    }
    span.to
}

// The row behind the last one of `span` that is changed, or the span's first row.
fn last_changed(b: &[u8], s: Layout, table: &[u16], span: Span) -> usize
    requires { Room s (length b.now) × Within span s }
    ensures { (span.from ≤ result) × (result ≤ span.to) × Stays s b.now table.now result span.to }
{
    for r in (span.from..span.to).rev() {
        if is_changed(b, s, table, r) {
            return r + 1;
        }
    }
    span.from
}

// The rows of `span` from the first that is changed to the last: a copy looks twice at these alone.
pub fn changed_span(b: &[u8], s: Layout, table: &[u16], span: Span) -> Span
    requires { Room s (length b.now) × Within span s }
    ensures { Between s b.now table.now span result }
{
    let first = first_changed(b, s, table, span);
    let rest = Span {
        from: first,
        ..span
    };
    let last = last_changed(b, s, table, rest);
    Span {
        from: first,
        to: last,
    }
}
