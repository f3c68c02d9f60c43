// The rows of a text: free variables by number, the bindings of the quantifier lines, then AND over the clauses, each an OR.
ghost use Rattle.std.specs.Prelude.{◌≡◌, true, cond, map, ◌+◌, ◌^◌, ◌≤◌, ◌<◌, eqb, length, set};
ghost use Rattle.sheet.specs.Format.{row};
ghost use Rattle.sheet.specs.Sheet.{binding_row};
ghost use Rattle.rows.specs.Layouts.{Fits, total, rows_in, Room};
ghost use Rattle.rows.specs.Tables.{HIGHEST};
ghost use Rattle.words.specs.Numbers.{largest};
ghost use Rattle.words.specs.Literals.{variable};
ghost use Rattle.qdimacs.specs.Inner.Lists.{first_length};
ghost use Rattle.qdimacs.specs.Inner.Cursor.{tokens_at};
ghost use Rattle.qdimacs.specs.Inner.Clauses.{variable_said};
ghost use Rattle.qdimacs.specs.Inner.Marks.{Listed, bindings_in, frees};
ghost use Rattle.qdimacs.specs.Inner.Rows.{spliced, clause_rows, Openable, open_place, open_rows, literal_row, word_place, word_rows, Writable};

use crate::clauses::literal_said;
use crate::marks::FREE;
use crate::prefix::{BETWEEN, CLAUSE, step};
use rows::write::set_row;
use rows::{EXISTS, Layout, NUMBERS, OR};
use words::literal::{kind_of, variable_of};
use words::token::{NONE, POSITIVE, Token, ZERO, next_token};

// How far the clauses are written: the next word, the next row, and whether a clause begins there.
#[derive(Clone, Copy)]
pub struct ListPlace {
    pub at: usize,
    pub row: usize,
    pub fresh: bool,
}

// Writes a row at `r` if it is chosen, and returns the next row.
fn write_if(chosen: bool, kind: u8, x: usize, out: &mut [u8], s: Layout, r: usize) -> usize
    requires { Room s (length out.old) × (chosen ≡ true → r < total s) × (r < largest) × (chosen ≡ true → Fits s x) }
    ensures out_after { rows_in s out.new ≡ cond chosen (set (rows_in s out.old) r (row kind x)) (rows_in s out.old) }
    ensures value { result ≡ cond chosen (r + 1) r }
{
    if !chosen {
        return r;
    }
    set_row(out, s, r, kind, x);
    r + 1
}

// Writes the rows of the free variables up to `most` from the first row on, and returns how many they are.
pub fn write_free(marks: &[u8; NUMBERS], most: usize, out: &mut [u8], s: Layout) -> usize
    requires { Room s (length out.old) × (most ≤ HIGHEST) × (length (frees marks.now most) ≤ total s) }
    ensures out_after { rows_in s out.new ≡ spliced (rows_in s out.old) 0 (map binding_row (frees marks.now most)) }
    ensures value { result ≡ length (frees marks.now most) }
{
    let mut r: usize = 0;
    for x in 1..most + 1 {
        r = write_if(marks[x] == FREE, EXISTS, x, out, s, r);
    }
    r
}

// Writes the rows of the quantifier lines from row `from` on, and returns the row behind them.
pub fn write_bound(b: &[u8], out: &mut [u8], s: Layout, from: usize) -> usize
    requires { Listed b.now × Room s (length out.old) × (from + length (bindings_in b.now) ≤ total s) × (total s < 2 ^ 32) }
    ensures out_after { rows_in s out.new ≡ spliced (rows_in s out.old) from (map binding_row (bindings_in b.now)) }
    ensures value { result ≡ from + length (bindings_in b.now) }
{
    let mut r = from;
    let mut state = BETWEEN;
    let mut at: usize = 0;
    while at < b.len() {
        let t = next_token(b, at);
        let next = step(state, t.class);
        if CLAUSE <= next {
            return r;
        }
        r = write_if(t.class == POSITIVE, state, t.magnitude, out, s, r);
        state = next;
        at = t.to;
    }
    r
}

// How many words there are from `from` on before the next 0.
fn clause_length(b: &[u8], from: usize) -> usize
    requires { from ≤ length b.now }
    ensures { result ≡ first_length (tokens_at b.now from) }
{
    let mut n: usize = 0;
    let mut at = from;
    while at < b.len() {
        let t = next_token(b, at);
        if t.class == ZERO {
            return n;
        }
        n += usize::from(t.class != NONE);
        at = t.to;
    }
    n
}

// Writes the OR row of a clause, if one begins with this word.
fn open_clause(b: &[u8], p: ListPlace, class: u8, out: &mut [u8], s: Layout) -> ListPlace
    requires { Openable b.now p class s (length out.old) }
    ensures value { result ≡ open_place p class }
    ensures out_after { rows_in s out.new ≡ open_rows b.now p class (rows_in s out.old) }
{
    if !p.fresh || class == NONE {
        return p;
    }
    set_row(out, s, p.row, OR, clause_length(b, p.at));
    ListPlace {
        row: p.row + 1,
        ..p
    }
}

// Writes the row of a literal: its kind and its variable.
fn write_literal(literal: i32, out: &mut [u8], s: Layout, r: usize)
    requires { Room s (length out.old) × (r < total s) × Fits s (variable literal) }
    ensures { rows_in s out.new ≡ set (rows_in s out.old) r (literal_row literal) }
{
    set_row(out, s, r, kind_of(literal), variable_of(literal));
}

// Writes the row of a word, if it is a number other than 0.
fn write_word(t: Token, p: ListPlace, out: &mut [u8], s: Layout) -> ListPlace
    requires { Room s (length out.old) × (7 ≤ t.class → p.row < total s) × (p.row < largest) × (7 ≤ t.class → Fits s (variable_said t)) }
    ensures value { result ≡ word_place t p }
    ensures out_after { rows_in s out.new ≡ word_rows t p (rows_in s out.old) }
{
    if t.class == ZERO {
        return ListPlace {
            at: t.to,
            fresh: true,
            ..p
        };
    }
    if t.class < ZERO {
        return ListPlace { at: t.to, ..p };
    }
    write_literal(literal_said(t), out, s, p.row);
    ListPlace {
        at: t.to,
        row: p.row + 1,
        fresh: false,
    }
}

// Writes the rows of the clauses that begin at `from`, from row `r` on.
pub fn write_clauses(b: &[u8], from: usize, out: &mut [u8], s: Layout, r: usize)
    requires { Writable b.now from s (length out.old) r }
    ensures { rows_in s out.new ≡ spliced (rows_in s out.old) r (clause_rows (tokens_at b.now from)) }
{
    let mut p = ListPlace {
        at: from,
        row: r,
        fresh: true,
    };
    while p.at < b.len() {
        let t = next_token(b, p.at);
        let opened = open_clause(b, p, t.class, out, s);
        p = write_word(t, opened, out, s);
    }
}
