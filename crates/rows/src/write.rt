// Rows written by their number, and the first rows of a sheet made a sheet of their own.
ghost use Rattle.std.specs.Prelude.{◌≡◌, ◌+◌, ◌*◌, ◌≤◌, ◌<◌, length, set};
ghost use Rattle.sheet.specs.Format.{row};
ghost use Rattle.rows.specs.Layouts.{width, Fits, total, rows_in, Room, Kept, sealed};

use crate::bytes::{clear, move_down, put_number};
use crate::places::{argument_place, kind_place};
use crate::{Layout, width};

// Writes row `r`, and no other byte.
pub fn set_row(b: &mut [u8], s: Layout, r: usize, kind: u8, argument: usize)
    requires { Room s (length b.old) × (r < total s) × Fits s argument }
    ensures b_after { rows_in s b.new ≡ set (rows_in s b.old) r (row kind argument) }
    ensures kept { Kept s b.old b.new }
{
    b[kind_place(s, r)] = kind;
    put_number(b, argument_place(s, r), s.format, argument);
}

// Makes the first `m` rows a sheet of as many variables, with zeros behind it, and returns its length.
pub fn seal(b: &mut [u8], s: Layout, m: usize) -> usize
    requires { Room s (length b.old) × (m ≤ total s) × (s.variables ≤ m) }
    ensures b_after { b.new ≡ sealed s m b.old }
    ensures value { result ≡ 2 * width s + m + width s * m }
{
    let f = s.format;
    let w = width(f);
    move_down(b, 2 * w + m, 2 * w + (s.variables + s.nodes), w * m);
    let end = 2 * w + m + w * m;
    clear(b, end);
    put_number(b, 0, f, s.variables);
    put_number(b, w, f, m - s.variables);
    end
}
