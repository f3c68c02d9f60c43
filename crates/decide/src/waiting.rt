// A sheet that waits at the front of the stack while its halves are decided: set aside, and read again for each half.
ghost use Rattle.std.specs.Prelude.{◌≤◌, length};
ghost use Rattle.decide.specs.Inner.Waiting.{Waiting, SetAside, Halved};

use prefixes::bound_at;
use raw::settle::write_settled;
use rows::bytes::copy_front;
use rows::fit::sheet_length;
use rows::{Layout, NUMBERS};
use substitution::table::fill;

// Sets the sheet at the front of `b` aside to the front of the stack, if that has a place of so many bytes.
pub fn set_aside(b: &[u8], t: Layout, place: usize, stack: &mut [u8]) -> bool
    requires { Waiting place t b.now }
    ensures { SetAside place t b.now stack.old stack.new result }
{
    if stack.len() < place {
        return false;
    }
    let n = sheet_length(t.format, t.variables, t.nodes);
    copy_front(&b[..n], stack);
    true
}

// Writes the rows of a half, the sheet with a value for its first row, and returns their layout.
pub fn write_half(b: &[u8], t: Layout, value: bool, out: &mut [u8]) -> Layout
    requires { Waiting (length out.old) t b.now }
    ensures { Halved t b.now value result out.new }
{
    let mut table = [0u16; NUMBERS];
    fill(&mut table, bound_at(b, t, 0), value);
    write_settled(b, t, &table, 0, out);
    Layout {
        format: t.format,
        variables: t.variables - 1,
        nodes: t.nodes,
    }
}
