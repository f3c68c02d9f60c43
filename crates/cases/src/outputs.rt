// Outputs: what they are filled with before a call, and what a line contains of them after it.
use printing::print_number;
use rows::Format;
use rows::fit::sheet_length;
use rows::places::header;
use rows::read::{nodes_at, variables_at};
use std::io;
use std::io::Write;

const FILLING: u8 = 165;

// The longest sheet that is written in hexadecimal.
const SHORT: usize = 64;

// Fills an output, so that it is not clean before a call.
pub fn fill(out: &mut [u8]) {
    out.fill(FILLING);
}

// A sum that depends on each byte and on its place.
fn sum(bytes: &[u8]) -> usize {
    let mut so_far = 0;
    for byte in bytes {
        so_far = (257 * so_far + usize::from(*byte)) % 65521;
    }
    so_far
}

pub fn print_sum<W: Write>(to: &mut W, out: &[u8]) -> io::Result<()> {
    to.write_all(b" sum")?;
    print_number(to, sum(out))
}

fn print_hexadecimal<W: Write>(to: &mut W, bytes: &[u8]) -> io::Result<()> {
    to.write_all(b" sheet")?;
    for byte in bytes {
        write!(to, " {byte:02x}")?;
    }
    Ok(())
}

// Writes a short sheet of this length from the front of the output.
pub fn print_short<W: Write>(to: &mut W, out: &[u8], length: usize) -> io::Result<()> {
    if length <= SHORT && length <= out.len() {
        print_hexadecimal(to, &out[..length])?;
    }
    Ok(())
}

// Writes the sheet at the front of Solve's first buffer if it is short. A refused call leaves the filling there, which isn't taken for a
// short sheet.
pub fn print_reached<W: Write>(to: &mut W, first: &[u8], f: Format) -> io::Result<()> {
    if first.len() < header(f) {
        return Ok(());
    }
    let variables = variables_at(first, f);
    let nodes = nodes_at(first, f);
    print_short(to, first, sheet_length(f, variables, nodes))
}
