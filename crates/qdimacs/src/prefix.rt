// The quantifier lines: where they end, and what they bind.
ghost use Rattle.std.specs.Prelude.{◌≡◌, true, ◌≤◌, ◌<◌, length};
ghost use Rattle.qdimacs.specs.Inner.Cursor.{opened, continued, step, Cuts};

use rows::NUMBERS;
use words::token::{EXISTS, FOR_ALL, NONE, POSITIVE, Token, ZERO, next_token};

// States: between two lines, within one (1 exists, 2 for all, like the kinds of rows), at the first clause, at a wrong word.
pub const BETWEEN: u8 = 0;

pub const CLAUSE: u8 = 3;

pub const WRONG: u8 = 4;

// Whether all quantifier lines are as they should be, and where the clauses begin.
#[derive(Clone, Copy)]
pub struct Cut {
    pub ordered: bool,
    pub at: usize,
}

// The state after a word between two lines: e or a opens a line, and any other word belongs to a clause.
fn opened(class: u8) -> u8
    ensures { result ≡ opened class }
{
    match class {
        NONE => BETWEEN,
        EXISTS => rows::EXISTS,
        FOR_ALL => rows::FOR_ALL,
        _ => CLAUSE,
    }
}

// The state after a word within a line: numbers without sign go on, and 0 ends the line.
fn continued(state: u8, class: u8) -> u8
    ensures { result ≡ continued state class }
{
    match class {
        NONE | POSITIVE => state,
        ZERO => BETWEEN,
        _ => WRONG,
    }
}

// The state after a word.
pub fn step(state: u8, class: u8) -> u8
    ensures { result ≡ step state class }
{
    if state == BETWEEN {
        return opened(class);
    }
    continued(state, class)
}

// Reads the quantifier lines, up to the first clause.
pub fn prefix_end(b: &[u8]) -> Cut
    ensures { Cuts b.now result }
{
    let mut state = BETWEEN;
    let mut at: usize = 0;
    while at < b.len() {
        let t = next_token(b, at);
        let next = step(state, t.class);
        if CLAUSE <= next {
            return Cut {
                ordered: next == CLAUSE,
                at,
            };
        }
        state = next;
        at = t.to;
    }
    Cut {
        ordered: state == BETWEEN,
        at,
    }
}
