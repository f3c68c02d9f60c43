// Writes bytes of a sheet: a number, a part moved, zeros.
ghost use Rattle.std.specs.Prelude.{◌≡◌, ◌++◌, ◌+◌, ◌-◌, ◌≤◌, length, take, drop, replicate};
ghost use Rattle.sheet.specs.Format.{digits};
ghost use Rattle.rows.specs.Formats.{format_of};

use crate::Format;

// Writes a number to the two bytes at `at`, low byte first.
fn put_pair(b: &mut [u8], at: usize, value: usize)
    requires { at + 2 ≤ length b.old }
    ensures { b.new ≡ take at b.old ++ digits 2 value ++ drop (at + 2) b.old }
{
    b[at] = (value % 256) as u8;
    b[at + 1] = (value / 256 % 256) as u8;
}

// Writes a number to the four bytes at `at`, low byte first.
fn put_quad(b: &mut [u8], at: usize, value: usize)
    requires { at + 4 ≤ length b.old }
    ensures { b.new ≡ take at b.old ++ digits 4 value ++ drop (at + 4) b.old }
{
    put_pair(b, at, value);
    put_pair(b, at + 2, value / 65536);
}

// Writes a number of a format at `at`, low byte first: two bytes or four.
pub fn put_number(b: &mut [u8], at: usize, f: Format, value: usize)
    requires { at + (format_of f).width ≤ length b.old }
    ensures { b.new ≡ take at b.old ++ digits (format_of f).width value ++ drop (at + (format_of f).width) b.old }
{
    match f {
        Format::Narrow => put_pair(b, at, value),
        Format::Wide => put_quad(b, at, value),
    }
}

// Copies `count` bytes from `from` down to `to`.
pub fn move_down(b: &mut [u8], to: usize, from: usize, count: usize)
    requires { (to ≤ from) × (from + count ≤ length b.old) }
    ensures { b.new ≡ take to b.old ++ take count (drop from b.old) ++ drop (to + count) b.old }
{
    for i in 0..count {
        b[to + i] = b[from + i];
    }
}

// Copies a sheet, or other bytes, to the front of an output. The loop moves bytes and does no more, so that the compiler can move many at once;
// the library's methods would need `memmove` from outside, which no archive for C asks for.
pub fn copy_front(sheet: &[u8], out: &mut [u8])
    requires { length sheet.now ≤ length out.old }
    ensures { out.new ≡ sheet.now ++ drop (length sheet.now) out.old }
{
    for i in 0..sheet.len() {
        out[i] = sheet[i];
    }
}

// Makes every byte from `from` on zero.
pub fn clear(b: &mut [u8], from: usize)
    requires { from ≤ length b.old }
    ensures { b.new ≡ take from b.old ++ replicate (length b.old - from) 0 }
{
    b[from..].fill(0);
}
