// Calls each operation and writes its line, without the line's end.
use crate::ROOM;
use crate::answers::{
    print_checked, print_compared, print_forced, print_guarded, print_kinds, print_quoted,
    print_solved, print_tried, print_written,
};
use crate::copies::run_outer;
use crate::outputs::fill;
use printing::print_number;
use rows::Format;
use std::io;
use std::io::Write;

fn run_check<W: Write>(to: &mut W, sheet: &[u8], f: Format) -> io::Result<()> {
    to.write_all(b"check")?;
    print_checked(to, checking::check(sheet, f))
}

fn run_trial<W: Write>(to: &mut W, sheet: &[u8], f: Format) -> io::Result<()> {
    to.write_all(b"trial")?;
    print_tried(to, trial::trial(sheet, f))
}

fn run_part<W: Write>(to: &mut W, sheet: &[u8], f: Format, node: usize) -> io::Result<()> {
    to.write_all(b"part")?;
    print_kinds(to, part::part(sheet, f, node))
}

fn run_quote<W: Write>(to: &mut W, sheet: &[u8], f: Format, x: usize) -> io::Result<()> {
    to.write_all(b"quote")?;
    print_number(to, x)?;
    print_quoted(to, expand::quote::quote(sheet, f, x))
}

fn run_tidy<W: Write>(to: &mut W, sheet: &[u8], f: Format, out: &mut [u8]) -> io::Result<()> {
    to.write_all(b"tidy")?;
    let answer = tidying::tidy(sheet, f, out);
    print_written(to, answer, out)
}

fn run_reduce<W: Write>(to: &mut W, sheet: &[u8], f: Format, out: &mut [u8]) -> io::Result<()> {
    to.write_all(b"reduce")?;
    let answer = reduce::reduce(sheet, f, out);
    print_written(to, answer, out)
}

fn run_sort<W: Write>(to: &mut W, sheet: &[u8], f: Format, out: &mut [u8]) -> io::Result<()> {
    to.write_all(b"sort")?;
    let answer = sort_compare::sort::sort(sheet, f, out);
    print_written(to, answer, out)
}

fn run_qdimacs<W: Write>(to: &mut W, text: &[u8], f: Format, out: &mut [u8]) -> io::Result<()> {
    to.write_all(b"qdimacs")?;
    let answer = reader::qdimacs(text, f, out);
    print_written(to, answer, out)
}

fn run_settle<W: Write>(
    to: &mut W,
    sheet: &[u8],
    f: Format,
    x: usize,
    out: &mut [u8],
) -> io::Result<()> {
    to.write_all(b"settle")?;
    print_number(to, x)?;
    let answer = settle::settle(sheet, f, x, out);
    print_written(to, answer, out)
}

fn run_expand<W: Write>(
    to: &mut W,
    sheet: &[u8],
    f: Format,
    x: usize,
    out: &mut [u8],
) -> io::Result<()> {
    to.write_all(b"expand")?;
    print_number(to, x)?;
    let answer = expand::expand(sheet, f, x, out);
    print_written(to, answer, out)
}

// The ceiling is the number that the list begins with.
fn run_execute<W: Write>(
    to: &mut W,
    sheet: &[u8],
    f: Format,
    x: usize,
    list: &[u8],
    out: &mut [u8],
) -> io::Result<()> {
    if list.len() < 4 {
        return Ok(());
    }
    let ceiling = rows::quad_at(list, 0);
    to.write_all(b"execute")?;
    print_number(to, x)?;
    print_number(to, ceiling)?;
    let answer = expand::execute(sheet, f, x, ceiling, out);
    print_written(to, answer, out)
}

fn run_solve<W: Write>(
    to: &mut W,
    sheet: &[u8],
    f: Format,
    first: &mut [u8],
    second: &mut [u8],
) -> io::Result<()> {
    to.write_all(b"solve")?;
    let answer = solve::solve(sheet, f, first, second);
    print_solved(to, answer, f, first, second)
}

// Compares the sheet with the one in the list.
fn run_compare<W: Write>(
    to: &mut W,
    sheet: &[u8],
    f: Format,
    list: &[u8],
    first: &mut [u8],
    second: &mut [u8],
) -> io::Result<()> {
    to.write_all(b"compare")?;
    let answer = sort_compare::compare::compare(sheet, list, f, first, second);
    print_compared(to, answer, first, second)
}

// The list holds the values.
fn run_force<W: Write>(
    to: &mut W,
    sheet: &[u8],
    f: Format,
    list: &[u8],
    first: &mut [u8],
    second: &mut [u8],
) -> io::Result<()> {
    to.write_all(b"force")?;
    let answer = force::force(sheet, f, list, first, second);
    print_forced(to, answer, first, second)
}

fn guards_in_buffers<W: Write>(
    to: &mut W,
    sheet: &[u8],
    f: Format,
    out: &mut [u8],
    first: &mut [u8],
    second: &mut [u8],
) -> io::Result<()> {
    fill(first);
    to.write_all(b"guards")?;
    let answer = guards::guards(sheet, f, out, first, second);
    print_guarded(to, answer, out, first, second)
}

// The length of the first buffer is the number that the list begins with.
fn run_guards<W: Write>(
    to: &mut W,
    sheet: &[u8],
    f: Format,
    list: &[u8],
    out: &mut [u8],
    second: &mut [u8],
) -> io::Result<()> {
    let mut space = [0u8; ROOM];
    if list.len() < 4 {
        return Ok(());
    }
    let room = rows::quad_at(list, 0);
    if ROOM < room {
        return Ok(());
    }
    let first = &mut space[..room];
    guards_in_buffers(to, sheet, f, out, first, second)
}

// Calls the operation of this small letter, one of those with a second buffer.
fn run_in_buffers<W: Write>(
    to: &mut W,
    operation: u8,
    f: Format,
    sheet: &[u8],
    list: &[u8],
    out: &mut [u8],
    second: &mut [u8],
) -> io::Result<()> {
    fill(second);
    match operation {
        b'o' => run_solve(to, sheet, f, out, second),
        b'k' => run_compare(to, sheet, f, list, out, second),
        b'f' => run_force(to, sheet, f, list, out, second),
        b'g' => run_guards(to, sheet, f, list, out, second),
        _ => Ok(()),
    }
}

// The same with a second buffer of `length` bytes.
fn run_beside<W: Write>(
    to: &mut W,
    operation: u8,
    f: Format,
    length: usize,
    sheet: &[u8],
    list: &[u8],
    out: &mut [u8],
) -> io::Result<()> {
    let mut space = [0u8; ROOM];
    if ROOM < length {
        return Ok(());
    }
    let second = &mut space[..length];
    run_in_buffers(to, operation, f, sheet, list, out, second)
}

// Calls the operation of this small letter on a sheet of this format.
fn run_on<W: Write>(
    to: &mut W,
    operation: u8,
    f: Format,
    number: usize,
    sheet: &[u8],
    list: &[u8],
    out: &mut [u8],
) -> io::Result<()> {
    match operation {
        b'c' => run_check(to, sheet, f),
        b't' => run_trial(to, sheet, f),
        b'p' => run_part(to, sheet, f, number),
        b'q' => run_quote(to, sheet, f, number),
        b'd' => run_tidy(to, sheet, f, out),
        b'r' => run_reduce(to, sheet, f, out),
        b'a' => run_sort(to, sheet, f, out),
        b'm' => run_qdimacs(to, sheet, f, out),
        b's' => run_settle(to, sheet, f, number, out),
        b'e' => run_expand(to, sheet, f, number, out),
        b'x' => run_execute(to, sheet, f, number, list, out),
        b'u' => run_outer(to, sheet, f, number, out),
        _ => run_beside(to, operation, f, number, sheet, list, out),
    }
}

fn run_to_wide<W: Write>(to: &mut W, sheet: &[u8], out: &mut [u8]) -> io::Result<()> {
    to.write_all(b"widen")?;
    let answer = conversion::to_wide(sheet, out);
    print_written(to, answer, out)
}

fn run_to_narrow<W: Write>(to: &mut W, sheet: &[u8], out: &mut [u8]) -> io::Result<()> {
    to.write_all(b"bring back")?;
    let answer = conversion::to_narrow(sheet, out);
    print_written(to, answer, out)
}

// Calls the operation of this letter. A capital other than W and N is the small letter's operation on a wide sheet.
pub fn run<W: Write>(
    to: &mut W,
    operation: u8,
    number: usize,
    sheet: &[u8],
    list: &[u8],
    out: &mut [u8],
) -> io::Result<()> {
    fill(out);
    match operation {
        b'W' => run_to_wide(to, sheet, out),
        b'N' => run_to_narrow(to, sheet, out),
        b'A'..=b'Z' => {
            to.write_all(b"wide ")?;
            run_on(to, operation + 32, Format::Wide, number, sheet, list, out)
        }
        _ => run_on(to, operation, Format::Narrow, number, sheet, list, out),
    }
}
