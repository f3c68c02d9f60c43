// What the programs write to standard output: a blank and a number, a word, the program's line. And how they read standard input.
#![tactic(auto)]

ghost use Rattle.std.specs.Prelude.{[], ◌∷◌, OnOk};
ghost use Rattle.std.specs.Io.KnownBytes.{Appends};
ghost use Rattle.solve.specs.Lines.{word_of, written_line};
ghost use Rattle.printing.specs.Text.{blank_number, word_text, line_text};

pub mod input;

use solve::line::{Line, Word};
use std::io;
use std::io::Write;

// Writes a blank and a number of 64 bits.
pub fn print_count<W: Write>(to: &mut W, n: u64) -> io::Result<()>
    ensures { OnOk result (Appends (W.contents to.old) (W.contents to.new) (blank_number n)) }
{
    write!(to, " {n}")
}

// Writes a blank and a number.
pub fn print_number<W: Write>(to: &mut W, n: usize) -> io::Result<()>
    ensures { OnOk result (Appends (W.contents to.old) (W.contents to.new) (blank_number n)) }
{
    print_count(to, n as u64)
}

// Writes the word that the program's line begins with.
pub fn print_word<W: Write>(to: &mut W, word: Word) -> io::Result<()>
    ensures { OnOk result (Appends (W.contents to.old) (W.contents to.new) (word_text (word_of word))) }
{
    match word {
        Word::True => to.write_all(b"true"),
        Word::False => to.write_all(b"false"),
        Word::Stopped => to.write_all(b"stopped"),
        Word::Refused => to.write_all(b"refused"),
    }
}

// Writes the program's line ("Solve, Trial, Part"), but not its end.
pub fn print_line<W: Write>(to: &mut W, line: Line) -> io::Result<()>
    ensures { OnOk result (Appends (W.contents to.old) (W.contents to.new) (line_text (written_line line))) }
{
    let word = line.word;
    print_word(to, word)?;
    print_number(to, line.settled)?;
    print_number(to, line.expanded)?;
    print_number(to, line.last)
}

pub fn end_line<W: Write>(to: &mut W) -> io::Result<()>
    ensures { OnOk result (Appends (W.contents to.old) (W.contents to.new) (10 ∷ [])) }
{
    to.write_all(b"\n")
}
