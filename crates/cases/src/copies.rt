// The step one block out (N6).
use crate::answers::print_refused;
use crate::outputs::{print_short, print_sum};
use outer::Copied;
use printing::print_number;
use rows::Format;
use rows::refusals::Refusal;
use std::io;
use std::io::Write;

fn print_copied<W: Write>(
    to: &mut W,
    answer: Result<Copied, Refusal>,
    out: &[u8],
) -> io::Result<()> {
    match answer {
        Ok(c) => {
            to.write_all(b" accepted")?;
            print_number(to, c.length)?;
            print_number(to, c.copied)?;
            print_number(to, c.lowest)?;
            print_sum(to, out)?;
            print_short(to, out, c.length)
        }
        Err(refusal) => {
            print_refused(to, refusal)?;
            print_sum(to, out)
        }
    }
}

pub fn run_outer<W: Write>(
    to: &mut W,
    sheet: &[u8],
    f: Format,
    x: usize,
    out: &mut [u8],
) -> io::Result<()> {
    to.write_all(b"outer")?;
    print_number(to, x)?;
    let answer = outer::outer(sheet, f, x, out);
    print_copied(to, answer, out)
}
