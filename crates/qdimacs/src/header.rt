// The header: comment lines and blank ones may be above it, and its line is p cnf and two numbers.
ghost use Rattle.std.specs.Prelude.{◌≡◌, ◌&&◌, suc, ◌+◌, ◌≤◌, eqb, length, drop};
ghost use Rattle.sheet.specs.Qdimacs.{header_of};
ghost use Rattle.sheet.specs.Texts.{Line, is_skipped, separated};
ghost use Rattle.qdimacs.specs.Inner.Header.{HeaderAt, next_line, unsigned_class, is_header, Heads};

use words::cursor::{end_of, skip_white};
use words::token::{CNF, NONE, P, POSITIVE, ZERO, next_token};

// Whether the header is as it should be, and its numbers of variables and of clauses; a number too large for 64 bits is read as the largest
// one.
#[derive(Clone, Copy)]
pub struct Header {
    pub well_formed: bool,
    pub variables: usize,
    pub clauses: usize,
}

// Whether a line is a comment or blank.
#[tactic(auto, using(crate::proofs::HeaderLines::empty_skipped, crate::proofs::HeaderLines::comment_skipped, crate::proofs::HeaderLines::white_skipped))]
fn is_skipped(line: &[u8]) -> bool
    requires { Line line.now }
    ensures { result ≡ is_skipped line.now }
{
    line.is_empty() || line[0] == b'c' || skip_white(line, 0) == line.len()
}

// Where the line behind the one that ends at `to` begins.
pub fn next_line(to: usize, len: usize) -> usize
    ensures { result ≡ next_line to len }
{
    if to < len {
        return to + 1;
    }
    len
}

// Where the header's line begins, or the text's end if there is none.
pub fn header_line(text: &[u8]) -> usize
    ensures { HeaderAt text.now result }
{
    let mut at: usize = 0;
    while at < text.len() {
        let to = end_of(text, at, true);
        if !is_skipped(&text[at..to]) {
            return at;
        }
        at = next_line(to, text.len());
    }
    at
}

// Whether a word of this class is a number without sign.
fn is_unsigned(class: u8) -> bool
    ensures { result ≡ unsigned_class class }
{
    class == ZERO || class == POSITIVE
}

// Whether the words of a line are p, cnf and two unsigned numbers, and no more.
#[tactic(auto, unfolding(crate::specs::Inner::Header::is_header))]
fn is_header(p: u8, cnf: u8, variables: u8, clauses: u8, last: u8) -> bool
    ensures { result ≡ is_header p cnf variables clauses last }
{
    p == P && cnf == CNF && is_unsigned(variables) && is_unsigned(clauses) && last == NONE
}

// Reads a line as a header.
pub fn read_header(line: &[u8]) -> Header
    ensures { Heads (header_of (separated line.now)) result }
{
    let p = next_token(line, 0);
    let cnf = next_token(line, p.to);
    let variables = next_token(line, cnf.to);
    let clauses = next_token(line, variables.to);
    let last = next_token(line, clauses.to);
    let well_formed = is_header(
        p.class,
        cnf.class,
        variables.class,
        clauses.class,
        last.class,
    );
    Header {
        well_formed,
        variables: variables.magnitude,
        clauses: clauses.magnitude,
    }
}
