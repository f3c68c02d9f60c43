// Sizes, and rows by their number, counted over the whole sheet.
ghost use Rattle.std.specs.Prelude.{◌≡◌, ◌^◌, ◌≤◌, ◌<◌, length, get_or};
ghost use Rattle.sheet.specs.Format.{header, variables, nodes, row, children};
ghost use Rattle.rows.specs.Formats.{format_of};
ghost use Rattle.rows.specs.Layouts.{total, rows_in, Room};

use crate::places::{argument_place, kind_place};
use crate::{Format, Layout, NEGATIVE, number_at, width};

// V, from a sheet's first bytes.
pub fn variables_at(b: &[u8], f: Format) -> usize
    requires { header (format_of f) ≤ length b.now }
    ensures { (result ≡ variables (format_of f) b.now) × (result < 2 ^ 32) }
{
    number_at(b, 0, f)
}

// N, from the bytes behind V.
pub fn nodes_at(b: &[u8], f: Format) -> usize
    requires { header (format_of f) ≤ length b.now }
    ensures { (result ≡ nodes (format_of f) b.now) × (result < 2 ^ 32) }
{
    number_at(b, width(f), f)
}

// The kind of row `r`.
pub fn kind_at(b: &[u8], s: Layout, r: usize) -> u8
    requires { Room s (length b.now) × (r < total s) }
    ensures { result ≡ (get_or (rows_in s b.now) r (row 0 0)).kind }
{
    b[kind_place(s, r)]
}

// The argument of row `r`.
pub fn argument_at(b: &[u8], s: Layout, r: usize) -> usize
    requires { Room s (length b.now) × (r < total s) }
    ensures { (result ≡ (get_or (rows_in s b.now) r (row 0 0)).argument) × (result < 2 ^ 32) }
{
    number_at(b, argument_place(s, r), s.format)
}

// How many children row `r` adds to the tree.
pub fn children_at(b: &[u8], s: Layout, r: usize) -> usize
    requires { Room s (length b.now) × (r < total s) }
    ensures { (result ≡ children (get_or (rows_in s b.now) r (row 0 0))) × (result < 2 ^ 32) }
{
    if kind_at(b, s, r) <= NEGATIVE {
        0
    } else {
        argument_at(b, s, r)
    }
}
