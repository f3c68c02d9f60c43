// Rows of a sheet by their number, at either width: what all code above reads sheets through.
#![tactic(auto)]

ghost use Rattle.std.specs.Prelude.{◌≡◌, ◌+◌, ◌^◌, ◌≤◌, ◌<◌, length, take, drop};
ghost use Rattle.sheet.specs.Format.{number};
ghost use Rattle.rows.specs.Formats.{format_of};

pub mod bytes;
pub mod fit;
pub mod places;
pub mod read;
pub mod refusals;
pub mod write;

// Kinds of rows: 1 exists, 2 for all, 3 a variable, 4 its negation, 5 AND, 6 OR.
pub const EXISTS: u8 = 1;

pub const FOR_ALL: u8 = 2;

pub const POSITIVE: u8 = 3;

pub const NEGATIVE: u8 = 4;

pub const AND: u8 = 5;

pub const OR: u8 = 6;

// Entries of a table by node row and of one by variable number, enough for the wider format: 8,192 rows, numbers 0 to 1,024.
pub const ROWS: usize = 8192;

pub const NUMBERS: usize = 1025;

// The two formats: document 01's own sheets, of 16-bit numbers, and wide ones (N11), of 32-bit numbers.
#[derive(Clone, Copy, PartialEq, Eq, Debug)]
pub enum Format {
    Narrow,
    Wide,
}

// How a sheet's rows lie in its bytes: its format, variables, nodes.
#[derive(Clone, Copy, PartialEq, Eq, Debug)]
pub struct Layout {
    pub format: Format,
    pub variables: usize,
    pub nodes: usize,
}

// Bytes to a number.
pub fn width(f: Format) -> usize
    ensures { (result ≡ (format_of f).width) × (result ≤ 4) }
{
    match f {
        Format::Narrow => 2,
        Format::Wide => 4,
    }
}

// The most variables, and the highest variable number.
pub fn most_variables(f: Format) -> usize
    ensures { result ≡ (format_of f).most_variables }
{
    match f {
        Format::Narrow => 256,
        Format::Wide => 1024,
    }
}

pub fn most_nodes(f: Format) -> usize
    ensures { result ≡ (format_of f).most_nodes }
{
    match f {
        Format::Narrow => 4096,
        Format::Wide => 8192,
    }
}

// A byte as a number.
pub fn from_byte(b: u8) -> usize
    ensures { (result ≡ b) × (result < 256) }
{
    usize::from(b)
}

// The number of two bytes that stands at `at`, low byte first.
fn pair_at(b: &[u8], at: usize) -> usize
    requires { at + 2 ≤ length b.now }
    ensures { (result ≡ number (take 2 (drop at b.now))) × (result < 2 ^ 16) }
{
    from_byte(b[at]) + 256 * from_byte(b[at + 1])
}

// The number of four bytes that stands at `at`, low byte first.
pub fn quad_at(b: &[u8], at: usize) -> usize
    requires { at + 4 ≤ length b.now }
    ensures { (result ≡ number (take 4 (drop at b.now))) × (result < 2 ^ 32) }
{
    pair_at(b, at) + 65536 * pair_at(b, at + 2)
}

// The number of a format that stands at `at`, low byte first: two bytes or four, read at once.
pub fn number_at(b: &[u8], at: usize, f: Format) -> usize
    requires { at + (format_of f).width ≤ length b.now }
    ensures { (result ≡ number (take (format_of f).width (drop at b.now))) × (result < 2 ^ 32) }
{
    match f {
        Format::Narrow => pair_at(b, at),
        Format::Wide => quad_at(b, at),
    }
}
