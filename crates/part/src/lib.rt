// Part: the kind bytes of a subtree, as a part of the sheet lent.
#![tactic(auto)]

ghost use Rattle.std.specs.Prelude.{◌≡◌, length, take, drop};
ghost use Rattle.sheet.specs.Operations.{part_call};
ghost use Rattle.rows.specs.Formats.{format_of};
ghost use Rattle.part.specs.Places.{part_place, moved_on};

use rows::Format;
use rows::places::kind_place;

// The kind bytes that the subtree of a node covers, from 0 for the root on; none if Check refuses the sheet or there is no such node.
pub fn part<'a>(sheet: &'a [u8], f: Format, node: usize) -> &'a [u8]
    ensures result_value { result.now ≡ part_call (format_of f) sheet.now node }
    ensures result_value_2 { result.now ≡ take (length result.now) (drop (part_place (format_of f) sheet.now node) sheet.now) }
    ensures ref_ptr_value { result.ref_ptr ≡ moved_on (part_place (format_of f) sheet.now node) sheet.entry.ref_ptr }
{
    let Ok(s) = checking::check(sheet, f) else {
        return &sheet[0..0];
    };
    if s.nodes <= node {
        return &sheet[0..0];
    }
    let first = s.variables + node;
    let end = checking::walk(sheet, s, first);
    let from = kind_place(s, first);
    let to = kind_place(s, end.row);
    &sheet[from..to]
}
