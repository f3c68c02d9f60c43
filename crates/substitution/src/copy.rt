// Bytes copied to the front of a lent part of the output.
ghost use Rattle.std.specs.Prelude.{◌≡◌, ◌++◌, ◌+◌, ◌*◌, ◌≤◌, length, take, drop};
ghost use Rattle.sheet.specs.Sheet.{row_kinds, row_arguments};
ghost use Rattle.rows.specs.Layouts.{width};
ghost use Rattle.substitution.specs.Output.{extent, copy_in, Copying};

use crate::Span;
use crate::change::{new_argument, new_kind};
use rows::bytes::{copy_front, put_number};
use rows::places::{argument_place, kind_place};
use rows::{Layout, width};

// Copies `count` bytes from byte `from` of `b` on to the front of `out`.
pub fn copy_bytes(b: &[u8], from: usize, count: usize, out: &mut [u8])
    requires { (from + count ≤ length b.now) × (count ≤ length out.old) }
    ensures { out.new ≡ take count (drop from b.now) ++ drop count out.old }
{
    copy_front(&b[from..from + count], out);
}

// Copies the kinds of the rows `span`, changed by the table. All are moved as they are; between the first row that is changed and the
// last, each then gets its new kind.
pub fn copy_kinds(b: &[u8], s: Layout, table: &[u16], span: Span, changed: Span, out: &mut [u8])
    requires { Copying s b.now table.now span changed × (extent span ≤ length out.old) }
    ensures { out.new ≡ row_kinds (copy_in s b.now table.now span) ++ drop (extent span) out.old }
{
    let from = span.from;
    copy_bytes(b, kind_place(s, from), span.to - from, out);
    for r in changed.from..changed.to {
        out[r - from] = new_kind(b, s, table, r);
    }
}

// Copies the arguments of the rows `span`, changed by the table, in the same way.
pub fn copy_arguments(b: &[u8], s: Layout, table: &[u16], span: Span, changed: Span, out: &mut [u8])
    requires { Copying s b.now table.now span changed × (width s * extent span ≤ length out.old) }
    ensures { out.new ≡ row_arguments (width s) (copy_in s b.now table.now span) ++ drop (width s * extent span) out.old }
{
    let f = s.format;
    let w = width(f);
    let from = span.from;
    copy_bytes(b, argument_place(s, from), w * (span.to - from), out);
    for r in changed.from..changed.to {
        put_number(out, w * (r - from), f, new_argument(b, s, table, r));
    }
}
