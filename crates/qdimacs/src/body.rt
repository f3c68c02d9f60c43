// The sheet of a text's words.
ghost use Rattle.std.specs.Prelude.{◌≡◌, ◌+◌, ◌*◌, ◌≤◌, ◌<◌, length};
ghost use Rattle.rows.specs.Formats.{format_of};
ghost use Rattle.rows.specs.Layouts.{width, total};
ghost use Rattle.rows.specs.Tables.{HIGHEST};
ghost use Rattle.words.specs.Numbers.{largest};
ghost use Rattle.qdimacs.specs.Inner.Body.{Scanned, Placeable, laid, body_rows, Answers, CountedAnswers};

use crate::clauses::{count_clauses, has_above};
use crate::header::Header;
use crate::marks::{bind, count_free, name};
use crate::prefix::prefix_end;
use crate::write::{write_bound, write_clauses, write_free};
use rows::fit::sheet_length;
use rows::refusals::Refusal;
use rows::write::{seal, set_row};
use rows::{AND, Format, Layout, NUMBERS, most_nodes};

// The words below the header, scanned: where the clauses begin, how many they are, how many words they take, and the highest number
// that a variable may have.
#[derive(Clone, Copy)]
pub struct Body {
    pub from: usize,
    pub clauses: usize,
    pub words: usize,
    pub most: usize,
}

// Writes the sheet to the front of `out`, with zeros behind it, and returns its length.
fn write_sheet(b: &[u8], marks: &[u8; NUMBERS], k: Body, out: &mut [u8], s: Layout) -> usize
    requires { Placeable b.now marks.now k s (length out.old) }
    ensures out_after { out.new ≡ laid s (body_rows b.now marks.now k) (length out.old) }
    ensures value { result ≡ 2 * width s + total s + width s * total s }
{
    let free = write_free(marks, k.most, out, s);
    let v = write_bound(b, out, s, free);
    set_row(out, s, v, AND, k.clauses);
    write_clauses(b, k.from, out, s, v + 1);
    seal(out, s, s.variables + s.nodes)
}

// Well listed words: 6 a number bound twice, 2 too many nodes, 13 output shorter than the sheet.
fn read_scanned(b: &[u8], f: Format, k: Body, out: &mut [u8]) -> Result<usize, Refusal>
    requires { Scanned b.now k }
    ensures { CountedAnswers (format_of f) b.now k out.old result out.new }
{
    let mut marks = [0u8; NUMBERS];
    let bound = bind(b, &mut marks);
    name(b, k.from, &mut marks);
    let free = count_free(&marks, k.most);
    if bound.twice {
        return Err(Refusal::BoundTwice(0));
    }
    if most_nodes(f) <= k.words {
        return Err(Refusal::SizeOutside);
    }
    let s = Layout {
        format: f,
        variables: free + bound.count,
        nodes: k.words + 1,
    };
    if out.len() < sheet_length(f, s.variables, s.nodes) {
        return Err(Refusal::NoRoom);
    }
    Ok(write_sheet(b, &marks, k, out, s))
}

// The words below a header: 16 not lists as they should be, 17 a number above the header's or another number of clauses.
pub fn read_body(b: &[u8], f: Format, h: Header, out: &mut [u8]) -> Result<usize, Refusal>
    requires { (h.variables ≤ HIGHEST) × (length b.now < largest) }
    ensures { Answers (format_of f) b.now h out.old result out.new }
{
    let cut = prefix_end(b);
    if !cut.ordered {
        return Err(Refusal::BadLists);
    }
    let c = count_clauses(b, cut.at);
    if !c.whole {
        return Err(Refusal::BadLists);
    }
    if c.ongoing {
        return Err(Refusal::BadLists);
    }
    if has_above(b, h.variables) {
        return Err(Refusal::BeyondHeader);
    }
    if c.count != h.clauses {
        return Err(Refusal::BeyondHeader);
    }
    let k = Body {
        from: cut.at,
        clauses: c.count,
        words: c.words,
        most: h.variables,
    };
    read_scanned(b, f, k, out)
}
