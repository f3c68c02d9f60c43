// Where words and lines end.
ghost use Rattle.std.specs.Prelude.{◌≡◌, ◌+◌, ◌≤◌, length, drop};
ghost use Rattle.sheet.specs.Texts.{separator};
ghost use Rattle.words.specs.Words.{ends, lead, gap};

// Space, tab, carriage return or line end.
fn is_white(c: u8) -> bool
    ensures { result ≡ separator c }
{
    c == b' ' || c == b'\t' || c == b'\r' || c == b'\n'
}

// Whether a byte ends a line, or else a word.
fn is_end(c: u8, line: bool) -> bool
    ensures { result ≡ ends line c }
{
    if line { c == b'\n' } else { is_white(c) }
}

// Where the line, or else the word, that begins at `at` ends.
pub fn end_of(b: &[u8], at: usize, line: bool) -> usize
    requires { at ≤ length b.now }
    ensures { result ≡ at + lead (ends line) (drop at b.now) }
{
    for to in at..b.len() {
        if is_end(b[to], line) {
            return to;
        }
    }
    b.len()
}

// The first byte from `at` on that is not white.
pub fn skip_white(b: &[u8], at: usize) -> usize
    requires { at ≤ length b.now }
    ensures { result ≡ at + gap (drop at b.now) }
{
    for from in at..b.len() {
        if !is_white(b[from]) {
            return from;
        }
    }
    b.len()
}
