// Rules 1 to 5 at an operator's children ("Tidy sheets", N4). A child is looked for among those before it by its hash; whether it is equal
// or opposite to one of them is decided by comparing rows. A table has the number of children and the hash of each operator.
ghost use Rattle.std.specs.Prelude.{◌≡◌, ◌+◌, ◌^◌, ◌≤◌, ◌<◌, length, take, drop};
ghost use Rattle.rows.specs.Layouts.{Fits, total, rows_in, Room};
ghost use Rattle.buckets.specs.Halves.{row_of};
ghost use Rattle.tidy_rules.specs.Walks.{at_row};
ghost use Rattle.tidy_rules.specs.Entered.{LiveAt};
ghost use Rattle.tidy_rules.specs.Gather.{SplicesAt, ToGather, GathersIn, LeavesIn};
ghost use Rattle.tidy_rules.specs.Rules.{Decides, mixes, literal_test, Chain, Finds, Member, Duplicates, FindsDuplicate, LiveChain, ToJudge, LiteralRow, JudgesAs, Judges, LinkedNow};

use crate::GONE;
use crate::dead::join_at;
use crate::same::same_at;
use crate::walk::{extent_at, hop};
use buckets::half::{children_of, hash_of, member_of, row_of};
use buckets::hash::{literal_hash, mixed};
use buckets::{add, behind, bucket_of, first, large, member};
use rows::read::{argument_at, kind_at};
use rows::write::set_row;
use rows::{Layout, NEGATIVE};

// A child: its row, its parent's kind, its entry of the table of operators, and how many members are before it. For a literal, `kind` is
// its own.
#[derive(Clone, Copy)]
pub struct Child {
    pub at: usize,
    pub kind: u8,
    pub known: usize,
    pub before: usize,
}

// The first `owed` trees from row `from` on: the children of an operator of this kind, whose own row is before them.
#[derive(Clone, Copy)]
pub struct Children {
    pub sheet: Layout,
    pub from: usize,
    pub owed: usize,
    pub kind: u8,
}

// What the rules make of all children, which end before row `end`: they decide the operator; or `count` members are left, and the operator
// over them has this hash.
#[derive(Clone, Copy)]
pub enum RulesOutcome {
    Decided {
        end: usize,
    },
    Left {
        end: usize,
        count: usize,
        hash: usize,
    },
}

// Rule 1 at a child, the first of `owed` trees: a child of the parent's own kind is replaced by its children. Returns how many trees are
// owed behind its row; a dead segment is not one of them.
pub fn splice_at(b: &mut [u8], s: Layout, c: Child, owed: usize) -> usize
    requires { Room s (length b.old) × Fits s (total s) × (c.at < total s) × (0 < owed) × (owed < 65536) × (c.known < 2 ^ 32) }
    ensures { SplicesAt (rows_in s b.old) (rows_in s b.new) c.at c.kind c.known owed result }
{
    let k = kind_at(b, s, c.at);
    if k == GONE {
        return owed;
    }
    if k != c.kind {
        return owed - 1;
    }
    set_row(b, s, c.at, GONE, 1);
    owed - 1 + children_of(c.known)
}

// Whether row `r` is a literal of the variable `x`.
pub fn literal_of(b: &[u8], s: Layout, r: usize, x: usize) -> bool
    requires { Room s (length b.now) × (r < total s) }
    ensures { result ≡ literal_test (at_row (rows_in s b.now) r) x }
{
    kind_at(b, s, r) <= NEGATIVE && argument_at(b, s, r) == x
}

// A member on this chain that is a literal of the variable `x`.
pub fn find(
    b: &[u8],
    s: Layout,
    links: &[u16],
    members: &[u32],
    start: Option<usize>,
    x: usize,
) -> Option<usize>
    requires { Room s (length b.now) × Chain (total s) links.now members.now start }
    ensures { Finds (rows_in s b.now) links.now members.now start x result }
{
    let mut link = start;
    while let Some(i) = link {
        if literal_of(b, s, row_of(member(members, i)), x) {
            return Some(i);
        }
        link = behind(links, i);
    }
    None
}

// Rules 3 and 4 at a literal: how many members there are now, or none if it decides the operator. A literal equal to a member goes. It can't
// decide the operator: no member is opposite to the member that it equals.
pub fn judge_literal(
    b: &mut [u8],
    s: Layout,
    c: Child,
    heads: &mut [u16],
    links: &mut [u16],
    members: &mut [u32],
) -> Option<usize>
    requires { ToJudge s b.old c heads.old links.old members.old × LiteralRow (rows_in s b.old) c.at c.kind }
    ensures judges_as { JudgesAs (rows_in s b.old) (rows_in s b.new) c.at c.known c.before members.old members.new result }
    ensures linked_now { LinkedNow heads.new links.new members.new c.before result }
{
    let x = argument_at(b, s, c.at);
    let p = literal_hash(usize::from(NEGATIVE - c.kind), x);
    let start = first(heads, members, c.before, bucket_of(p));
    let Some(i) = find(b, s, links, members, start, x) else {
        add(heads, links, members, c.before, member_of(c.at, p));
        return Some(c.before + 1);
    };
    let r = row_of(member(members, i));
    if kind_at(b, s, r) != c.kind {
        return None;
    }
    set_row(b, s, c.at, GONE, 1);
    Some(c.before)
}

// Rule 2: whether the operator is empty, and of another kind than its parent.
pub fn decides_at(b: &[u8], s: Layout, c: Child) -> bool
    requires { Room s (length b.now) × (c.at < total s) × (4 < (at_row (rows_in s b.now) c.at).kind) }
    ensures { Decides (rows_in s b.now) c.at c.kind c.known result }
{
    kind_at(b, s, c.at) != c.kind && children_of(c.known) == 0
}

// Whether two members are the same tree. Rows are compared only if the hashes are equal.
pub fn are_duplicates(b: &[u8], s: Layout, t: usize, m: usize) -> bool
    requires { Room s (length b.now) × LiveAt (rows_in s b.now) (row_of t) × LiveAt (rows_in s b.now) (row_of m) }
    ensures { Duplicates (rows_in s b.now) t m result }
{
    hash_of(t) == hash_of(m) && same_at(b, s, row_of(t), row_of(m))
}

// A member on this chain that is the same tree as the member `m`.
pub fn find_duplicate(
    b: &[u8],
    s: Layout,
    links: &[u16],
    members: &[u32],
    start: Option<usize>,
    m: usize,
) -> Option<usize>
    requires { Room s (length b.now) × LiveChain (rows_in s b.now) (total s) links.now members.now start × Member (rows_in s b.now) m }
    ensures { FindsDuplicate (rows_in s b.now) links.now members.now start m result }
{
    let mut link = start;
    while let Some(i) = link {
        if are_duplicates(b, s, member(members, i), m) {
            return Some(i);
        }
        link = behind(links, i);
    }
    None
}

// Rules 2 and 5 at an operator: how many members there are now, or none if it decides the one above. An operator equal to a member goes.
pub fn judge_operator(
    b: &mut [u8],
    s: Layout,
    c: Child,
    heads: &mut [u16],
    links: &mut [u16],
    members: &mut [u32],
) -> Option<usize>
    requires { ToJudge s b.old c heads.old links.old members.old × (4 < (at_row (rows_in s b.old) c.at).kind) }
    ensures judges { Judges (rows_in s b.old) (rows_in s b.new) c.at c.kind c.known c.before members.old members.new result }
    ensures linked_now { LinkedNow heads.new links.new members.new c.before result }
{
    if decides_at(b, s, c) {
        return None;
    }
    let m = member_of(c.at, hash_of(c.known));
    let start = first(heads, members, c.before, bucket_of(m));
    if find_duplicate(b, s, links, members, start, m).is_none() {
        add(heads, links, members, c.before, m);
        return Some(c.before + 1);
    }
    let rows = argument_at(b, s, c.at);
    set_row(b, s, c.at, GONE, rows);
    Some(c.before)
}

// Rules 2 to 5 at a child: how many members there are now, or none if it decides the operator.
pub fn judge(
    b: &mut [u8],
    s: Layout,
    c: Child,
    heads: &mut [u16],
    links: &mut [u16],
    members: &mut [u32],
) -> Option<usize>
    requires { ToJudge s b.old c heads.old links.old members.old }
    ensures judges { Judges (rows_in s b.old) (rows_in s b.new) c.at c.kind c.known c.before members.old members.new result }
    ensures linked_now { LinkedNow heads.new links.new members.new c.before result }
{
    let k = kind_at(b, s, c.at);
    if k == GONE {
        return Some(c.before);
    }
    if k <= NEGATIVE {
        return judge_literal(b, s, Child { kind: k, ..c }, heads, links, members);
    }
    judge_operator(b, s, c, heads, links, members)
}

// The hash `h` of an operator over its first `n` members, with the hash of member `n` mixed in if there are `count` members now and it is
// one of them.
pub fn hash_with(h: usize, members: &[u32], n: usize, count: usize) -> usize
    requires { (h < 65536) × (n < length members.now) × (count ≤ n + 1) }
    ensures { (result ≡ mixes h (drop n (take count members.now))) × (result < 65536) }
{
    if n < count {
        return mixed(h, hash_of(member(members, n)));
    }
    h
}

// Rules 1 to 5 at the children of an operator. If they don't decide the operator, its children are then what the rules leave of them, and
// the rows that have gone are joined, so that a later walk passes them in one step. A child of the parent's own kind is entered: its own
// children are tidied, so none of them is of that kind. The hash is mixed as members are added, which saves a walk over them. The tables of
// members may hold anything at first.
pub fn gather(
    b: &mut [u8],
    w: Children,
    heads: &mut [u16],
    links: &mut [u16],
    members: &mut [u32],
    known: &[u32],
) -> RulesOutcome
    requires { ToGather w b.old heads.old links.old members.old known.now }
    ensures gathers_in { GathersIn w b.old b.new known.now members.new result }
    ensures leaves_in { LeavesIn w members.new result }
{
    let s = w.sheet;
    let mut at = w.from;
    let mut run = w.from;
    let mut n: usize = 0;
    let mut hash = usize::from(w.kind);
    let mut left = w.owed;
    while 0 < left {
        let c = Child {
            at,
            kind: w.kind,
            known: large(known[at]),
            before: n,
        };
        left = splice_at(b, s, c, left);
        let next = at + extent_at(b, s, at);
        let Some(count) = judge(b, s, c, heads, links, members) else {
            return RulesOutcome::Decided {
                end: hop(b, s, next, left),
            };
        };
        hash = hash_with(hash, members, n, count);
        n = count;
        run = join_at(b, s, run, at, next);
        at = next;
    }
    RulesOutcome::Left {
        end: at,
        count: n,
        hash,
    }
}
