// Judges a value: the sheet reduced by the values given and by this one is written to the first buffer, and Solve runs from there.
ghost use Rattle.std.specs.Prelude.{◌≡◌};
ghost use Rattle.sheet.specs.Trace.{room};
ghost use Rattle.force.specs.Inner.Judging.{Judgeable, end_of, end_in};

use crate::moves::{fill_moves, write_behind};
use rows::{Layout, NUMBERS};
use solve::{Solved, run_raw};

// Judges the value `tried` for the first row without one, by a run in two buffers.
pub fn judge(
    sheet: &[u8],
    s: Layout,
    values: &[u8],
    tried: bool,
    first: &mut [u8],
    second: &mut [u8],
) -> Solved
    requires { Judgeable s sheet.now values.now (room first.old second.old) }
    ensures { end_of result ≡ end_in s sheet.now values.now tried (room first.old second.old) }
{
    let mut table = [0u16; NUMBERS];
    fill_moves(sheet, s, values, tried, &mut table);
    let t = write_behind(sheet, s, &table, values.len() + 1, first);
    run_raw(first, second, t)
}
