// Tidying at an operator's row, and at all rows from the last to the first ("Tidy sheets"). A table has one number for each live operator,
// with its number of children and its hash.
ghost use Rattle.std.specs.Prelude.{◌≤◌, ◌<◌, drop};
ghost use Rattle.rows.specs.Layouts.{total, rows_in};
ghost use Rattle.tidy_rules.specs.Rules.{Tables};
ghost use Rattle.tidying.specs.Inner.Operators.{KeptBehind, Hollows, ToConclude, ConcludesIn, ReadyAt, Combines, Preorder, Tidies};
ghost use Rattle.tidying.specs.Inner.Tables.{InPlace};

use buckets::half::{known_of, row_of};
use buckets::member;
use rows::read::{argument_at, kind_at};
use rows::write::set_row;
use rows::{AND, Layout, NEGATIVE, OR};
use tidy_rules::GONE;
use tidy_rules::rules::{Children, RulesOutcome, gather};

// A row of a sheet.
#[derive(Clone, Copy)]
pub struct OperatorPlace {
    pub sheet: Layout,
    pub row: usize,
}

// An operator of this kind at a row. Its children end before row `end`, `left` members are left of them, and `hash` is the operator's hash
// over these members.
#[derive(Clone, Copy)]
pub struct Node {
    pub sheet: Layout,
    pub row: usize,
    pub kind: u8,
    pub end: usize,
    pub left: usize,
    pub hash: usize,
}

// Makes the rows from `r` to `end` an empty operator of this kind.
pub fn hollow(b: &mut [u8], s: Layout, r: usize, kind: u8, end: usize, known: &mut [u32])
    requires { InPlace s b.old known.old × (r < end) × (end ≤ total s) }
    ensures hollows { Hollows (rows_in s b.old) (rows_in s b.new) known.new r end kind }
    ensures kept_behind { KeptBehind known.old known.new r }
{
    set_row(b, s, r, kind, end - r);
    known[r] = known_of(0, usize::from(kind)) as u32;
    if r + 1 < end {
        set_row(b, s, r + 1, GONE, end - r - 1);
    }
}

// Rule 6 at an operator's row, after the other rules have left members of its children: a lone child replaces the node.
pub fn conclude(b: &mut [u8], n: Node, members: &[u32], known: &mut [u32])
    requires { ToConclude n b.old known.old members.now }
    ensures concludes_in { ConcludesIn n b.old b.new known.old known.new members.now }
    ensures kept_behind { KeptBehind known.old known.new n.row }
{
    let Node {
        sheet: s,
        row: r,
        kind,
        end,
        left,
        hash,
    } = n;
    match left {
        0 => hollow(b, s, r, kind, end, known),
        1 => {
            let child = row_of(member(members, 0));
            set_row(b, s, r, GONE, child - r);
        }
        _ => {
            set_row(b, s, r, kind, end - r);
            known[r] = known_of(left, hash) as u32;
        }
    }
}

// All six rules at a row; the trees behind it are already tidied.
pub fn combine(
    b: &mut [u8],
    p: OperatorPlace,
    heads: &mut [u16],
    links: &mut [u16],
    members: &mut [u32],
    known: &mut [u32],
)
    requires { InPlace p.sheet b.old known.old × Tables p.sheet heads.old links.old members.old × ReadyAt (rows_in p.sheet b.old) known.old p.row (total p.sheet) }
    ensures { Combines (rows_in p.sheet b.old) (rows_in p.sheet b.new) known.old known.new p.row (total p.sheet) }
{
    let OperatorPlace { sheet: s, row: r } = p;
    let kind = kind_at(b, s, r);
    if kind <= NEGATIVE {
        return;
    }
    let w = Children {
        sheet: s,
        from: r + 1,
        owed: argument_at(b, s, r),
        kind,
    };
    match gather(b, w, heads, links, members, known) {
        RulesOutcome::Decided { end } => hollow(b, s, r, AND + OR - kind, end, known),
        RulesOutcome::Left { end, count, hash } => {
            let n = Node {
                sheet: s,
                row: r,
                kind,
                end,
                left: count,
                hash,
            };
            conclude(b, n, members, known);
        }
    }
}

// Tidies the trees whose rows are behind the quantifiers, each operator after its children. The tables may hold anything at first.
pub fn tidy_each(
    b: &mut [u8],
    s: Layout,
    heads: &mut [u16],
    links: &mut [u16],
    members: &mut [u32],
    known: &mut [u32],
)
    requires { InPlace s b.old known.old × Tables s heads.old links.old members.old × Preorder (drop s.variables (rows_in s b.old)) }
    ensures { Tidies (rows_in s b.old) (rows_in s b.new) known.new s.variables (total s) }
{
    for r in (s.variables..s.variables + s.nodes).rev() {
        let p = OperatorPlace { sheet: s, row: r };
        combine(b, p, heads, links, members, known);
    }
}
