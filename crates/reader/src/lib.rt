// A text with the offset of its next unread byte (N1). Thin: each function takes the reader apart, and the work is done on the text and
// the offset.
#![tactic(auto)]

ghost use Rattle.std.specs.Prelude.{◌≡◌, ◌≤◌, length, drop};
ghost use Rattle.sheet.specs.Qdimacs.{qdimacs_call};
ghost use Rattle.sheet.specs.Truthful.{TruthfulText};
ghost use Rattle.rows.specs.Formats.{format_of};
ghost use Rattle.checking.specs.Answers.{wrote};
ghost use Rattle.reader.specs.Inner.{HeadedAt, ListsRead};

use qdimacs::body::read_body;
use qdimacs::header::{Header, header_line, next_line, read_header};
use rows::refusals::Refusal;
use rows::{Format, most_variables};
use words::cursor::end_of;

#[derive(Clone, Copy)]
pub struct Reader<'a> {
    pub text: &'a [u8],
    pub at: usize,
}

// A header, and where the lines below it begin.
#[derive(Clone, Copy)]
pub struct Headed {
    pub header: Header,
    pub to: usize,
}

// A reader of a text of which nothing is read.
pub fn open_text<'a>(text: &'a [u8]) -> Reader<'a>
    ensures { (result.text ≡ text.entry) × (result.at ≡ 0) }
{
    Reader { text, at: 0 }
}

// The same text, read up to `to`.
pub fn moved<'a>(r: Reader<'a>, to: usize) -> Reader<'a>
    ensures { (result.text ≡ r.entry.text) × (result.at ≡ to) }
{
    Reader { at: to, ..r }
}

// A text's header.
fn header_of(text: &[u8]) -> Headed
    ensures { HeadedAt text.now 0 result }
{
    let from = header_line(text);
    let end = end_of(text, from, true);
    let header = read_header(&text[from..end]);
    let to = next_line(end, text.len());
    Headed { header, to }
}

// The header of a text from `at` on.
fn header_from(text: &[u8], at: usize) -> Headed
    requires { at ≤ length text.now }
    ensures { HeadedAt text.now at result }
{
    let h = header_of(&text[at..]);
    Headed { to: at + h.to, ..h }
}

// The header, and where it ends.
pub fn header_next<'a>(r: Reader<'a>) -> Headed
    requires { r.at ≤ length r.text.now }
    ensures { HeadedAt r.entry.text.now r.entry.at result }
{
    header_from(r.text, r.at)
}

// The lists of a text from `at` on, below this header, written as a sheet: 15 no header as it should be, or too many variables.
fn lists_from(
    text: &[u8],
    at: usize,
    h: Header,
    f: Format,
    out: &mut [u8],
) -> Result<usize, Refusal>
    requires { at ≤ length text.now }
    ensures { ListsRead (format_of f) h (drop at text.now) out.old (wrote result out.new) }
{
    if !h.well_formed || most_variables(f) < h.variables {
        return Err(Refusal::BadHeader);
    }
    read_body(&text[at..], f, h, out)
}

// The lists that are unread, below this header, written as a sheet.
pub fn lists_next<'a, 'b>(
    r: Reader<'a>,
    h: Header,
    f: Format,
    out: &'b mut [u8],
) -> Result<usize, Refusal>
    requires { r.at ≤ length r.text.now }
    ensures { ListsRead (format_of f) h (drop r.entry.at r.entry.text.now) out.old (wrote result out.new) }
{
    lists_from(r.text, r.at, h, f, out)
}

// Writes the sheet of a QDIMACS text to the front of `out`, with zeros behind it, and returns its length; or refuses the text or the
// output, and alters nothing.
pub fn qdimacs(text: &[u8], f: Format, out: &mut [u8]) -> Result<usize, Refusal>
    ensures { (wrote result out.new ≡ qdimacs_call (format_of f) text.now out.old) × TruthfulText (format_of f) text.now (wrote result out.new) }
{
    let r = open_text(text);
    let h = header_next(r);
    lists_next(moved(r, h.to), h.header, f, out)
}
