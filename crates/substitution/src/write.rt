// Writes rows to the output one after the other: each function takes the row to write to and returns the row behind what it wrote.
ghost use Rattle.std.specs.Prelude.{◌≡◌, [], ◌∷◌, ◌+◌, ◌≤◌, ◌<◌, length, take, drop};
ghost use Rattle.std.proofs.Math.Seq.{slice};
ghost use Rattle.sheet.specs.Format.{row};
ghost use Rattle.rows.specs.Layouts.{Fits, total, rows_in, Room};
ghost use Rattle.substitution.specs.Output.{extent, copy_in, Within, CopyReady, spliced, Laid};

use crate::change::changed_span;
use crate::copy::{copy_arguments, copy_bytes, copy_kinds};
use crate::{Span, Target};
use rows::places::{argument_place, kind_place};
use rows::write::set_row;
use rows::{Layout, width};

// Writes a row.
pub fn write_row(out: &mut [u8], to: Target, kind: u8, argument: usize) -> usize
    requires { Room to.layout (length out.old) × (to.at < total to.layout) × Fits to.layout argument }
    ensures { Laid to.layout out.old out.new to.at result (row kind argument ∷ []) }
{
    set_row(out, to.layout, to.at, kind, argument);
    to.at + 1
}

// Writes `count` bytes of `b`, from byte `from` on, to the output from byte `start` on.
fn write_bytes(b: &[u8], from: usize, count: usize, out: &mut [u8], start: usize)
    requires { (from + count ≤ length b.now) × (start + count ≤ length out.old) }
    ensures { out.new ≡ spliced start (take count (drop from b.now)) out.old }
{
    copy_bytes(b, from, count, &mut out[start..]);
}

// Writes the rows `span` of `b` as they are.
pub fn write_rows(b: &[u8], s: Layout, span: Span, out: &mut [u8], to: Target) -> usize
    requires { CopyReady s b.now to.layout out.old × Within span s × (to.at + extent span ≤ total to.layout) }
    ensures laid { Laid to.layout out.old out.new to.at result (slice span.from span.to (rows_in s b.now)) }
    ensures value { result ≡ to.at + extent span }
{
    let Target { layout: t, at } = to;
    let from = span.from;
    let count = span.to - from;
    let kinds = kind_place(t, at);
    let arguments = argument_place(t, at);
    write_bytes(b, kind_place(s, from), count, out, kinds);
    write_bytes(
        b,
        argument_place(s, from),
        width(s.format) * count,
        out,
        arguments,
    );
    at + count
}

// Writes the rows `span` of `b`, changed by the table: the output's kind bytes from row `at` on are lent to the copying function, and then
// its argument bytes, since a slice lends one part at a time.
pub fn write_copy(
    b: &[u8],
    s: Layout,
    table: &[u16],
    span: Span,
    out: &mut [u8],
    to: Target,
) -> usize
    requires { CopyReady s b.now to.layout out.old × Within span s × (to.at + extent span ≤ total to.layout) }
    ensures laid { Laid to.layout out.old out.new to.at result (copy_in s b.now table.now span) }
    ensures value { result ≡ to.at + extent span }
{
    let Target { layout: t, at } = to;
    let changed = changed_span(b, s, table, span);
    let kinds = kind_place(t, at);
    let arguments = argument_place(t, at);
    copy_kinds(b, s, table, span, changed, &mut out[kinds..]);
    copy_arguments(b, s, table, span, changed, &mut out[arguments..]);
    at + (span.to - span.from)
}
