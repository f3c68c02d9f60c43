// The matrix as a chain of jumps: for each node row the row at which evaluation goes on once the subtree there is known to be true or false.
#![tactic(auto)]

ghost use Rattle.std.specs.Prelude.{◌≡◌, ◌≤◌, ◌<◌, length};
ghost use Rattle.rows.specs.Formulas.{node_rows_in, Readable};
ghost use Rattle.subtrees.specs.Ends.{Indexed};
ghost use Rattle.jumps.specs.Jumps.{entry, Parent, Parents, past, Targets, Rooms, Jumps};

use rows::Layout;
use subtrees::ends::fill_ends;
use subtrees::nodes::kind_at;

// A table's entry as a row.
pub fn to_row(entry: u16) -> usize
    ensures { result ≡ entry }
{
    usize::from(entry)
}

// The parent of row `i`: found by going up from the row before it, past every subtree that ends there.
fn parent_of(ends: &[u16], parents: &[u16], i: usize) -> usize
    requires { (0 < i) × (i < length ends.now) × (i < length parents.now) ×
        (i < entry ends.now 0) × Parents ends.now parents.now i }
    ensures { Parent ends.now result i }
{
    let mut p = i - 1;
    while to_row(ends[p]) <= i {
        p = to_row(parents[p]);
    }
    p
}

// Where evaluation goes on after a child's value: at the next child, if the value doesn't decide the parent and there is one; else where it
// goes on after the parent's value.
fn past(undecided: bool, end: u16, last: u16, up: u16) -> u16
    ensures { result ≡ past undecided end last up }
{
    if undecided && end < last { end } else { up }
}

// Gives every row its two targets, the first row first: the root's are the verdicts, a child's are made from its parent's.
fn wire(
    sheet: &[u8],
    s: Layout,
    ends: &[u16],
    parents: &mut [u16],
    high: &mut [u16],
    low: &mut [u16],
)
    requires { Indexed s sheet.now ends.now × (s.nodes ≤ length parents.old) × Rooms s.nodes high.old low.old }
    ensures { Targets (node_rows_in s sheet.now) ends.now high.new low.new s.nodes }
{
    let n = s.nodes;
    high[0] = n as u16;
    low[0] = (n + 1) as u16;
    for i in 1..n {
        let p = parent_of(ends, parents, i);
        parents[i] = p as u16;
        let conjunction = kind_at(sheet, s, p) == rows::AND;
        let end = ends[i];
        let last = ends[p];
        high[i] = past(conjunction, end, last, high[p]);
        low[i] = past(!conjunction, end, last, low[p]);
    }
}

// Builds the matrix's jump tables: where to go on once a subtree is known to be true (high) or false (low).
pub fn build(sheet: &[u8], s: Layout, high: &mut [u16], low: &mut [u16])
    requires { Readable s sheet.now × Rooms s.nodes high.old low.old }
    ensures { Jumps (node_rows_in s sheet.now) high.new low.new }
{
    let mut ends = [0u16; rows::ROWS];
    let mut parents = [0u16; rows::ROWS];
    fill_ends(sheet, s, &mut ends);
    wire(sheet, s, &ends, &mut parents, high, low);
}
