// The cases on standard input, read one after another, and their calls made as they are read. An input that ends within a case, or asks
// for more bytes than there is room for, ends the run.
use crate::ROOM;
use crate::operations::run;
use printing::input::read_full;
use std::io;
use std::io::{Read, Write};

// A call's letter and numbers, which stand before its list.
#[derive(Clone, Copy)]
struct Call {
    operation: u8,
    number: usize,
    room: usize,
    list_length: usize,
}

// Reads the next call as far as its list; where the input has ended, its letter is 0.
fn read_call<R: Read>(from: &mut R) -> io::Result<Call> {
    let mut head = [0u8; 13];
    read_full(from, &mut head)?;
    Ok(Call {
        operation: head[0],
        number: rows::quad_at(&head, 1),
        room: rows::quad_at(&head, 5),
        list_length: rows::quad_at(&head, 9),
    })
}

// Reads the call's list and makes the call; returns false if the list is too long.
fn make_call<R: Read, W: Write>(
    from: &mut R,
    to: &mut W,
    call: Call,
    sheet: &[u8],
    out: &mut [u8],
) -> io::Result<bool> {
    let mut space = [0u8; ROOM];
    let length = call.list_length;
    if ROOM < length {
        return Ok(false);
    }
    let list = &mut space[..length];
    read_full(from, list)?;
    run(to, call.operation, call.number, sheet, list, out)?;
    printing::end_line(to)?;
    Ok(true)
}

// Reads the next call on `sheet` and makes it, with a part of `space` as its output; returns false if it can't be made.
fn next_call<R: Read, W: Write>(
    from: &mut R,
    to: &mut W,
    sheet: &[u8],
    space: &mut [u8],
) -> io::Result<bool> {
    let call = read_call(from)?;
    if call.operation == 0 {
        return Ok(false);
    }
    let room = call.room;
    if space.len() < room {
        return Ok(false);
    }
    let out = &mut space[..room];
    make_call(from, to, call, sheet, out)
}

// Makes `calls` calls on `sheet`; returns false if one can't be made.
fn run_calls<R: Read, W: Write>(
    from: &mut R,
    to: &mut W,
    sheet: &[u8],
    calls: usize,
) -> io::Result<bool> {
    let mut space = [0u8; ROOM];
    for _ in 0..calls {
        if !next_call(from, to, sheet, &mut space)? {
            return Ok(false);
        }
    }
    Ok(true)
}

// Reads the next sheet and makes its calls; returns false if there is no sheet or a call can't be made.
fn next_case<R: Read, W: Write>(from: &mut R, to: &mut W, space: &mut [u8]) -> io::Result<bool> {
    let mut head = [0u8; 8];
    let got = read_full(from, &mut head)?;
    if got < 8 {
        return Ok(false);
    }
    let length = rows::quad_at(&head, 0);
    let calls = rows::quad_at(&head, 4);
    if space.len() < length {
        return Ok(false);
    }
    let sheet = &mut space[..length];
    read_full(from, sheet)?;
    run_calls(from, to, sheet, calls)
}

// Goes through the cases, 4,096 at most.
pub fn run_cases<R: Read, W: Write>(from: &mut R, to: &mut W, space: &mut [u8]) -> io::Result<()> {
    for _ in 0..4096 {
        if !next_case(from, to, space)? {
            return Ok(());
        }
    }
    Ok(())
}
