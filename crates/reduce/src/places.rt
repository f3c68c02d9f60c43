// The places of variables in the prefix, looked up by variable number.
ghost use Rattle.std.specs.Prelude.{◌≡◌, ◌<◌, length};
ghost use Rattle.rows.specs.Formulas.{prefix_in};
ghost use Rattle.rows.specs.Tables.{NUMBERS};
ghost use Rattle.prefixes.specs.Places.{place};
ghost use Rattle.reduce.specs.Inner.Places.{Numbered, Placed, variable_of, Bound, behind};

use prefixes::{bound_at, is_existential};
use rows::Layout;
use rows::read::argument_at;

// Fills the table from the last row of the prefix to the first.
pub fn fill_places(b: &[u8], s: Layout, places: &mut [u16])
    requires { Numbered s b.now × (length places.old ≡ NUMBERS) }
    ensures { Placed s b.now places.new }
{
    for i in (0..s.variables).rev() {
        places[bound_at(b, s, i)] = i as u16;
    }
}

// The prefix row of the variable of the literal at row `r`.
pub fn place_at(b: &[u8], s: Layout, places: &[u16], r: usize) -> usize
    requires { Placed s b.now places.now × Bound s b.now r }
    ensures { (result ≡ place (variable_of s b.now r) (prefix_in s b.now)) × (result < s.variables) }
{
    usize::from(places[argument_at(b, s, r)])
}

// The prefix row behind that of the literal's variable if the variable is existential, else 0.
pub fn behind_at(b: &[u8], s: Layout, places: &[u16], r: usize) -> usize
    requires { Placed s b.now places.now × Bound s b.now r }
    ensures { result ≡ behind (prefix_in s b.now) (variable_of s b.now r) }
{
    let i = place_at(b, s, places, r);
    if is_existential(b, s, i) {
        return i + 1;
    }
    0
}
