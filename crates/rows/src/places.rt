// Where the bytes of a sheet stand: its two sizes, then the kinds of all rows, then their arguments.
ghost use Rattle.std.specs.Prelude.{◌≡◌, ◌^◌, ◌≤◌, ◌<◌};
ghost use Rattle.sheet.specs.Format.{header};
ghost use Rattle.rows.specs.Formats.{format_of};
ghost use Rattle.rows.specs.Layouts.{kind_place, argument_place};

use crate::{Format, Layout, width};

// The bytes of the two sizes.
pub fn header(f: Format) -> usize
    ensures { result ≡ header (format_of f) }
{
    2 * width(f)
}

// The byte with the kind of row `r`.
pub fn kind_place(s: Layout, r: usize) -> usize
    requires { kind_place s r < 2 ^ 63 }
    ensures { result ≡ kind_place s r }
{
    2 * width(s.format) + r
}

// The first byte of the argument of row `r`. Each format has a branch of its own, so that the compiler knows the width as a constant.
pub fn argument_place(s: Layout, r: usize) -> usize
    requires { argument_place s r < 2 ^ 63 }
    ensures { result ≡ argument_place s r }
{
    match s.format {
        Format::Narrow => 4 + (s.variables + s.nodes) + 2 * r,
        Format::Wide => 8 + (s.variables + s.nodes) + 4 * r,
    }
}
