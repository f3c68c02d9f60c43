// How long a sheet is, and whether it fits.
ghost use Rattle.std.specs.Prelude.{◌≡◌, min, ◌^◌, ◌<◌};
ghost use Rattle.sheet.specs.Format.{sheet_length, fits};
ghost use Rattle.rows.specs.Formats.{format_of};

use crate::{Format, most_nodes, width};

// The bytes of a sheet of `v` variables and `n` nodes.
pub fn sheet_length(f: Format, v: usize, n: usize) -> usize
    requires { (v < 2 ^ 32) × (n < 2 ^ 32) }
    ensures { result ≡ sheet_length (format_of f) v n }
{
    let w = width(f);
    2 * w + (1 + w) * (v + n)
}

// Whether such a sheet fits: its nodes are within the format's limit, and its bytes within `room`.
pub fn fits(f: Format, v: usize, n: usize, room: usize) -> bool
    requires { (v < 2 ^ 32) × (n < 2 ^ 32) }
    ensures { result ≡ fits (format_of f) room v n }
{
    n <= most_nodes(f) && sheet_length(f, v, n) <= room
}

// The smaller of two lengths.
pub fn shorter(a: usize, b: usize) -> usize
    ensures { result ≡ min a b }
{
    a.min(b)
}
