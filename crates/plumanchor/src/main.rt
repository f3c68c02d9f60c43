// The program: solves the wide sheet on standard input and writes one line ("Solve, Trial, Part"; N11).
#![tactic(auto)]

ghost use Rattle.std.specs.Prelude.{OnOk, IfSome, take};
ghost use Rattle.std.specs.Io.KnownBytes.{Appends};
ghost use Rattle.plumanchor.specs.Program.{answer_text};

use rows::Format;
use std::io;
use std::io::{Read, Write};

// Solves a wide sheet and writes its line.
fn write_answer<W: Write>(to: &mut W, sheet: &[u8]) -> io::Result<()>
    ensures { OnOk result (Appends (W.contents to.old) (W.contents to.new) (answer_text 46088 sheet.now)) }
{
    let mut first = [0u8; 46088];
    let mut second = [0u8; 46088];
    let answer = solve::solve(sheet, Format::Wide, &mut first, &mut second);
    printing::print_line(to, solve::line::line_for(answer))?;
    printing::end_line(to)
}

// Writes to standard error what to do with a good sheet of 16-bit numbers. It is never a good wide one, since its N is where a wide sheet
// has the upper half of V. The line is written by then, so a hint that can't be written is no error.
fn hint<W: Write>(to: &mut W, input: &[u8]) {
    if checking::check(input, Format::Narrow).is_ok() {
        let _ = to.write_all(
            b"plumanchor: this is a sheet of 16-bit numbers; './plumanchor solve --from narrow' solves it\n",
        );
    }
}

// One byte more is read than the longest sheet has, so that a longer input is refused for its length.
fn run<R: Read, W: Write, E: Write>(from: &mut R, to: &mut W, hints: &mut E) -> io::Result<()>
    ensures { OnOk result (IfSome (R.remaining from.old) (λ b. Appends (W.contents to.old) (W.contents to.new) (answer_text 46088 (take 46089 b)))) }
{
    let mut input = [0u8; 46089];
    let length = printing::input::read_full(from, &mut input)?;
    write_answer(to, &input[..length])?;
    hint(hints, &input[..length]);
    Ok(())
}

fn main(rt: HostRuntime) -> io::Result<()> {
    run(&mut rt.stdin(), &mut rt.stdout(), &mut rt.stderr())
}
