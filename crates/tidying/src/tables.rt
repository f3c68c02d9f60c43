// Tidies rows in place, with tables on the stack. The tables have an entry for each row and not many more, since clearing a long table
// would cost a small sheet most of its time. They have one of eight lengths; the last two are enough for the largest narrow sheet and for
// the largest wide one.
ghost use Rattle.std.specs.Prelude.{◌≤◌, length};
ghost use Rattle.rows.specs.Layouts.{total};
ghost use Rattle.tidying.specs.Limits.{Raw};
ghost use Rattle.tidying.specs.Inner.Tables.{Leaves};

use crate::operator::tidy_each;
use crate::pack::pack;
use buckets::BUCKETS;
use rows::Layout;
use rows::write::seal;

// Tidies the formula whose rows are in `b`, and returns the tidied sheet's layout. The tables may hold anything at first.
pub fn tidy_by(
    b: &mut [u8],
    s: Layout,
    heads: &mut [u16; BUCKETS],
    links: &mut [u16],
    members: &mut [u32],
    known: &mut [u32],
) -> Layout
    requires { Raw s b.old × (total s ≤ length links.old) × (total s ≤ length members.old) × (total s ≤ length known.old) }
    ensures { Leaves s b.old b.new result }
{
    tidy_each(b, s, heads, links, members, known);
    let rows = pack(b, s, known);
    seal(b, s, rows);
    Layout {
        nodes: rows - s.variables,
        ..s
    }
}

// The same for `ROWS` rows at most, with tables of zeros.
fn tidy_within<const ROWS: usize>(b: &mut [u8], s: Layout) -> Layout
    requires { Raw s b.old × (total s ≤ ROWS) × (ROWS ≤ 9216) }
    ensures { Leaves s b.old b.new result }
{
    let mut heads = [0u16; BUCKETS];
    let mut links = [0u16; ROWS];
    let mut members = [0u32; ROWS];
    let mut known = [0u32; ROWS];
    tidy_by(b, s, &mut heads, &mut links, &mut members, &mut known)
}

// The same, with the shortest tables that have an entry for each row.
pub fn tidy_rows(b: &mut [u8], s: Layout) -> Layout
    requires { Raw s b.old }
    ensures { Leaves s b.old b.new result }
{
    match s.variables + s.nodes {
        ..=256 => tidy_within::<256>(b, s),
        ..=512 => tidy_within::<512>(b, s),
        ..=1024 => tidy_within::<1024>(b, s),
        ..=1536 => tidy_within::<1536>(b, s),
        ..=2048 => tidy_within::<2048>(b, s),
        ..=3072 => tidy_within::<3072>(b, s),
        ..=4352 => tidy_within::<4352>(b, s),
        _ => tidy_within::<9216>(b, s),
    }
}
