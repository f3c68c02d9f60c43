// Force (N9), with a byte for each value given, in two work buffers: refusal number and place; or a word for the outcome, the turn and the
// variable stopped at.
ghost use Rattle.std.specs.Prelude.{◌≡◌};
ghost use Rattle.sheet.specs.Format.{narrow, wide};
ghost use Rattle.sheet.specs.Force.{force_call};
ghost use Rattle.rows.specs.Formats.{format_of};
ghost use Rattle.capi.specs.Returned.{buffers_left, packed_forcing};
ghost use Rattle.packing.specs.Told.{ToldForce};

use packing::panel::pack_forced;
use rows::Format;

fn force(sheet: &[u8], f: Format, values: &[u8], first: &mut [u8], second: &mut [u8]) -> u64
    ensures second_value { buffers_left result first second ≡ packed_forcing (force_call (format_of f) sheet.now values.now first.old second.old) }
    ensures told_force { ToldForce (format_of f) sheet.now values.now result }
{
    pack_forced(force::force(sheet, f, values, first, second))
}

#[unsafe(no_mangle)]
pub extern "C" fn plumanchor_force(
    sheet: &[u8],
    values: &[u8],
    first: &mut [u8],
    second: &mut [u8],
) -> u64
    ensures second_value { buffers_left result first second ≡ packed_forcing (force_call narrow sheet.now values.now first.old second.old) }
    ensures told_force { ToldForce narrow sheet.now values.now result }
{
    force(sheet, Format::Narrow, values, first, second)
}

#[unsafe(no_mangle)]
pub extern "C" fn plumanchor_force_wide(
    sheet: &[u8],
    values: &[u8],
    first: &mut [u8],
    second: &mut [u8],
) -> u64
    ensures second_value { buffers_left result first second ≡ packed_forcing (force_call wide sheet.now values.now first.old second.old) }
    ensures told_force { ToldForce wide sheet.now values.now result }
{
    force(sheet, Format::Wide, values, first, second)
}
