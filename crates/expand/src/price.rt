// What a quote and an expansion have in common: test 11, and the price of the variable, found with the tables of occurrences.
ghost use Rattle.std.specs.Prelude.{◌≡◌, ◌*◌, ◌≤◌, length};
ghost use Rattle.rows.specs.Tables.{NUMBERS};
ghost use Rattle.subtrees.specs.Ends.{Indexed};
ghost use Rattle.polarity.specs.Value.{Bound};
ghost use Rattle.elimination.specs.Steps.{Named};
ghost use Rattle.expand.specs.Inner.Price.{Prices};

use crate::block::is_innermost;
use choice::expand::price_row;
use elimination::admission::Binding;
use occurrences::fill_occurrences;
use relevance::variable::Candidate;
use rows::Layout;

// The price of a variable of the prefix: its relevant subtree and the raw sheet's node rows; or none, outside the innermost block. Both
// tables are filled.
pub fn find_price(
    sheet: &[u8],
    s: Layout,
    ends: &[u16],
    z: Binding,
    ranges: &mut [u16],
    next: &mut [u16],
) -> Option<Candidate>
    requires indexed { Indexed s sheet.now ends.now × Bound s sheet.now × Named s sheet.now z.variable z.row }
    requires ranges_len { (length ranges.old ≡ 2 * NUMBERS) × (s.nodes ≤ length next.old) }
    ensures { Prices s sheet.now z ranges.new next.new result }
{
    fill_occurrences(sheet, s, ranges, next);
    if !is_innermost(sheet, s, ranges, z) {
        return None;
    }
    Some(price_row(sheet, s, ends, ranges, next, z.row))
}
