// Two runs of trees merged into one.
ghost use Rattle.std.specs.Prelude.{◌≡◌, ◌++◌, ◌+◌, ◌≤◌, ◌<◌, length, take, drop};
ghost use Rattle.formula.specs.Tree.{rows_all};
ghost use Rattle.formula.specs.Order.{leads};
ghost use Rattle.sheet.specs.Sheet.{root, front};
ghost use Rattle.subtrees.specs.Ends.{Indexed};
ghost use Rattle.tree_order.specs.Tables.{FirstSized, first_size, picked, standing, Stands, forest_entries};
ghost use Rattle.tree_order.specs.Arranging.{first_leads};
ghost use Rattle.tree_order.specs.Merging.{Merger, Turned, all_merged, arranged};

use crate::compare::compare_rows;
use rows::Layout;

// Where the next tree of each run is and how many are left, and where the next merged tree goes.
#[derive(Clone, Copy, PartialEq, Eq, Debug)]
pub struct Runs {
    pub left: usize,
    pub lefts: usize,
    pub right: usize,
    pub rights: usize,
    pub to: usize,
}

// How many rows the first tree of a table has.
pub fn first_size(ends: &[u16], at: &[u16]) -> usize
    requires { FirstSized ends.now at.now }
    ensures { result ≡ first_size ends.now at.now }
{
    let i = usize::from(at[0]);
    usize::from(ends[i]) - i
}

// Whether the first tree of one table may stand before the first tree of another.
fn in_order(b: &[u8], s: Layout, ends: &[u16], at: &[u16], to: &[u16]) -> bool
    requires { Indexed s b.now ends.now × Stands s b.now ends.now at.now 1 × Stands s b.now ends.now to.now 1 }
    ensures { result ≡ leads (root (standing s b.now at.now)) (root (standing s b.now to.now)) }
{
    let m = first_size(ends, at);
    let n = first_size(ends, to);
    compare_rows(b, s, &at[..m], b, s, &to[..n]).is_le()
}

// Copies the entries of one table to place `to` of another.
fn copy_entries(from: &[u16], table: &mut [u16], to: usize)
    requires { to + length from.now ≤ length table.old }
    ensures { table.new ≡ take to table.old ++ from.now ++ drop (to + length from.now) table.old }
{
    for i in 0..from.len() {
        table[to + i] = from[i];
    }
}

// Whether the left run's next tree goes first.
fn takes_left(b: &[u8], s: Layout, ends: &[u16], at: &[u16], m: Runs) -> bool
    requires { Indexed s b.now ends.now × Merger s b.now ends.now at.now m × (0 < m.lefts) }
    ensures { result ≡ first_leads (root (standing s b.now (drop m.left at.now))) (front m.rights (standing s b.now (drop m.right at.now))) }
{
    if m.rights == 0 {
        return true;
    }
    in_order(b, s, ends, &at[m.left..], &at[m.right..])
}

// Copies the first tree of a table to place `to` of another, and returns how many rows it has.
fn copy_first(ends: &[u16], at: &[u16], spare: &mut [u16], to: usize) -> usize
    requires { FirstSized ends.now at.now × (first_size ends.now at.now ≤ length at.now) × (to + first_size ends.now at.now ≤ length spare.old) }
    ensures value { result ≡ first_size ends.now at.now }
    ensures spare_after { spare.new ≡ take to spare.old ++ take result at.now ++ drop (to + result) spare.old }
{
    let n = first_size(ends, at);
    copy_entries(&at[..n], spare, to);
    n
}

// Moves the next tree of one of the two runs.
fn turn(b: &[u8], s: Layout, ends: &[u16], at: &[u16], m: Runs, spare: &mut [u16]) -> Runs
    requires { Indexed s b.now ends.now × Merger s b.now ends.now at.now m × (0 < m.lefts) × (length at.now ≤ length spare.old) }
    ensures { Turned s b.now ends.now at.now spare.old spare.new m result }
{
    if takes_left(b, s, ends, at, m) {
        let n = copy_first(ends, &at[m.left..], spare, m.to);
        return Runs {
            left: m.left + n,
            lefts: m.lefts - 1,
            to: m.to + n,
            ..m
        };
    }
    let n = copy_first(ends, &at[m.right..], spare, m.to);
    Runs {
        right: m.right + n,
        rights: m.rights - 1,
        to: m.to + n,
        ..m
    }
}

// Merges two runs that stand at the front of a table, side by side. What is left of the right run stays where it is.
pub fn merge(b: &[u8], s: Layout, ends: &[u16], at: &mut [u16], spare: &mut [u16], start: Runs)
    requires { Indexed s b.now ends.now × Merger s b.now ends.now at.old start × (start.to ≡ 0) × (length at.old ≤ length spare.old) }
    ensures { picked s b.now ends.now at.new ≡ forest_entries (all_merged s b.now at.old start) }
{
    let mut m = start;
    while 0 < m.lefts {
        m = turn(b, s, ends, at, m, spare);
    }
    copy_entries(&spare[..m.to], at, 0);
}

// Puts the first `k` trees of a table in order, by halves, and returns where they end.
pub fn arrange(
    b: &[u8],
    s: Layout,
    ends: &[u16],
    at: &mut [u16],
    spare: &mut [u16],
    k: usize,
) -> usize
    requires { Indexed s b.now ends.now × Stands s b.now ends.now at.old k × (length at.old ≤ length spare.old) }
    ensures at_after { picked s b.now ends.now at.new ≡ forest_entries (arranged k (standing s b.now at.old)) }
    ensures value { result ≡ rows_all (front k (standing s b.now at.old)) }
{
    if k == 0 {
        return 0;
    }
    if k == 1 {
        return first_size(ends, at);
    }
    let half = k / 2;
    let middle = arrange(b, s, ends, at, spare, half);
    let end = arrange(b, s, ends, &mut at[middle..], spare, k - half);
    let runs = Runs {
        left: 0,
        lefts: half,
        right: middle,
        rights: k - half,
        to: 0,
    };
    merge(b, s, ends, at, spare, runs);
    middle + end
}
