// Quote: what an expansion costs, before anyone allows it ("Quote, then carry out").
ghost use Rattle.std.specs.Prelude.{◌≡◌};
ghost use Rattle.sheet.specs.Operations.{quote_call};
ghost use Rattle.rows.specs.Formats.{format_of};
ghost use Rattle.rows.specs.Layouts.{format_in};
ghost use Rattle.rows.specs.Refusals.{told};
ghost use Rattle.elimination.specs.Admission.{Admitted};

use crate::price::find_price;
use elimination::admission::{Binding, admit};
use rows::refusals::Refusal;
use rows::{Format, Layout, NUMBERS, ROWS};

// Quotes a variable that tests 1 to 10 admit: 11 not in the innermost block.
fn quote_admitted(sheet: &[u8], s: Layout, ends: &[u16], z: Binding) -> Result<usize, Refusal>
    requires { Admitted sheet.now z.variable s z.row ends.now }
    ensures { told result ≡ quote_call (format_in s) sheet.now z.variable }
{
    let mut ranges = [0u16; 2 * NUMBERS];
    let mut next = [0u16; ROWS];
    let c = find_price(sheet, s, ends, z, &mut ranges, &mut next).ok_or(Refusal::WrongBlock)?;
    Ok(c.raw)
}

// Quotes the expansion of `x`: the raw row count, or the refusal that Expand would give short of 13.
pub fn quote(sheet: &[u8], f: Format, x: usize) -> Result<usize, Refusal>
    ensures { told result ≡ quote_call (format_of f) sheet.now x }
{
    let mut ends = [0u16; ROWS];
    let (s, z) = admit(sheet, f, x, &mut ends)?;
    quote_admitted(sheet, s, &ends, z)
}
