// The children tried from first to last. A table has one entry for each child that is kept, the row at which it begins; a try is of
// these and of all children behind the one tried.
ghost use Rattle.std.specs.Prelude.{◌≡◌, ◌≤◌, ◌<◌, length};
ghost use Rattle.sheet.specs.Trace.{room};
ghost use Rattle.rows.specs.Tables.{ROWS};
ghost use Rattle.subtrees.specs.Ends.{Indexed};
ghost use Rattle.guards.specs.Inner.Sieves.{word_for, judged_by, Siftable, Sifted};

use crate::selection::{Selection, write_selection};
use rows::Layout;
use solve::{Solved, Verdict, run_raw};
use subtrees::nodes::children_at;

// What a run said.
#[derive(Clone, Copy)]
pub enum Word {
    False,
    True,
    Stopped,
}

// The state of the sifting: the row of the next child, how many children aren't tried yet, how many are kept, how many rows these have, and
// how many of them are kept because their run stopped.
#[derive(Clone, Copy)]
pub struct Sieve {
    pub at: usize,
    pub left: usize,
    pub guards: usize,
    pub rows: usize,
    pub stops: usize,
}

// What a run said.
fn heard(answer: Solved) -> Word
    ensures { result ≡ word_for answer }
{
    match answer {
        Solved::Stopped(_, _, _) => Word::Stopped,
        Solved::Ended(Verdict::True, _, _) => Word::True,
        Solved::Ended(Verdict::False, _, _) => Word::False,
    }
}

// Judges the child that ends at row `end`: left out for good if the run without it said false, else kept, and counted if that run stopped.
fn judge(g: Sieve, word: Word, end: usize) -> Sieve
    requires { (g.at ≤ end) × (0 < g.left) × (g.guards < 65536) × (g.rows < 65536) × (g.stops < 65536) × (end < 65536) }
    ensures { result ≡ judged_by g word end }
{
    match word {
        Word::False => Sieve {
            at: end,
            left: g.left - 1,
            guards: g.guards,
            rows: g.rows,
            stops: g.stops,
        },
        Word::True => Sieve {
            at: end,
            left: g.left - 1,
            guards: g.guards + 1,
            rows: g.rows + (end - g.at),
            stops: g.stops,
        },
        Word::Stopped => Sieve {
            at: end,
            left: g.left - 1,
            guards: g.guards + 1,
            rows: g.rows + (end - g.at),
            stops: g.stops + 1,
        },
    }
}

// Goes through the root's children: the first entries of the table are then the rows at which the children kept begin.
pub fn sift(
    b: &[u8],
    s: Layout,
    ends: &[u16],
    kept: &mut [u16],
    first: &mut [u8],
    second: &mut [u8],
) -> Sieve
    requires { Siftable s b.now (room first.old second.old) × Indexed s b.now ends.now × (ROWS ≤ length kept.old) }
    ensures { Sifted s b.now (room first.old second.old) ends.now kept.new result }
{
    let mut g = Sieve {
        at: 1,
        left: children_at(b, s, 0),
        guards: 0,
        rows: 0,
        stops: 0,
    };
    while 0 < g.left {
        let at = g.at;
        let count = g.guards;
        let end = ends[at] as usize;
        let others = Selection {
            guards: count + (g.left - 1),
            rows: g.rows + (s.nodes - end),
            rest: end,
        };
        let t = write_selection(b, s, ends, &kept[..count], others, first);
        let answer = run_raw(first, second, t);
        let said = heard(answer);
        kept[count] = at as u16;
        g = judge(g, said, end);
    }
    g
}
