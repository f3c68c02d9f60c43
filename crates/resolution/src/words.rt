// The words of a certificate: heads of four words to a step, and codes.
ghost use Rattle.std.specs.Prelude.{◌≡◌, ◌+◌, ◌*◌, ◌^◌, ◌≤◌, ◌<◌, length, get_or};
ghost use Rattle.sheet.specs.Certificates.{code_of, head_word, codes_from};
ghost use Rattle.resolution.specs.Codes.{complement, PartOf};

// How many codes there are, and the words of a set of them.
pub const CODES: usize = 4096;

pub const MARKS: usize = 64;

// A part of the codes, the words of one constraint, and a code that is left out, or 4,096 for none.
#[derive(Clone, Copy)]
pub struct Part {
    pub from: usize,
    pub to: usize,
    pub skip: usize,
}

// Word `j` in the head of step `k`.
pub fn head_word(heads: &[u32], k: usize, j: usize) -> usize
    requires { 4 * k + j < length heads.now }
    ensures { (result ≡ head_word heads.now k j) × (result < 2 ^ 32) }
{
    heads[4 * k + j] as usize
}

// The code that word `i` says.
pub fn code_at(codes: &[u32], i: usize) -> usize
    requires { i < length codes.now }
    ensures { (result ≡ code_of (get_or codes.now i 0)) × (result < 4096) }
{
    codes[i] as usize % CODES
}

// The code of the complement.
pub fn complement(c: usize) -> usize
    requires { c < 4096 }
    ensures { (result ≡ complement c) × (result < 4096) }
{
    if c % 2 == 0 { c + 1 } else { c - 1 }
}

// Where the codes of step `k` begin.
fn codes_from(heads: &[u32], k: usize) -> usize
    requires { 4 * k ≤ length heads.now }
    ensures { result ≡ codes_from heads.now k }
{
    if k == 0 {
        0
    } else {
        head_word(heads, k - 1, 3)
    }
}

// The part of step `k`, as far as there are codes.
pub fn part_of(heads: &[u32], codes: &[u32], k: usize, skip: usize) -> Part
    requires { 4 * k + 4 ≤ length heads.now }
    ensures { PartOf heads.now codes.now k skip result }
{
    Part {
        from: codes_from(heads, k),
        to: head_word(heads, k, 3).min(codes.len()),
        skip,
    }
}
