// The test program. Standard input holds cases: a sheet's length, the number of calls to be made on it, the sheet, the calls. A call is
// an operation's letter, a number (Part's node, the variable of a step or a quote, the length of Solve's second buffer), the length of
// the output (of Solve: its first buffer), the length of a list and the list, for operations that take values, a second sheet or further
// numbers. Numbers have four bytes, low byte first. A line is written for each call.
//
// Letters: c Check, t Trial, p Part, q Quote, d Tidy, r Reduce, a Sort, s Settle, e Expand, x Execute with its ceiling as the list, u the
// step one block out, o Solve. For the last eight the line contains the answer (for Solve: the program's line), a sum over each whole
// output and, if it is short, the new sheet in hexadecimal. f is Force, with the values as its list and the buffers of Solve; its line
// contains the answer and the sums. g is Guards: its number is the length of its second buffer, its list the length of its first, and its
// line contains the same. k is Compare with the sheet in the list; the output and a buffer of the number's length are its work buffers.
// Outputs are filled with one byte before a call, so that the sums also show which bytes were cleared and which were left alone.
//
// m reads QDIMACS: the sheet's bytes are the text.
//
// A capital makes the same call on a wide sheet (N11), and its line begins with "wide". W converts a narrow sheet to the wide format, N a
// wide one to the narrow format.
#![tactic(auto)]

mod answers;
mod copies;
mod input;
mod operations;
mod outputs;

use std::io;

// The longest output and the longest list of a call: each holds any sheet.
pub const ROOM: usize = 46088;

// More than a sheet may have, for those that are refused for their length.
const SHEET_ROOM: usize = 65535;

fn main(rt: HostRuntime) -> io::Result<()> {
    let mut space = [0u8; SHEET_ROOM];
    input::run_cases(&mut rt.stdin(), &mut rt.stdout(), &mut space)
}
