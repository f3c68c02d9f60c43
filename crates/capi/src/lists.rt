// A whole list of steps (N2), in arrays of numbers: refusal number and place, or the final sheet's length.
ghost use Rattle.std.specs.Prelude.{◌≡◌};
ghost use Rattle.sheet.specs.Format.{narrow, wide};
ghost use Rattle.sheet.specs.Truthful.{truth_of};
ghost use Rattle.packing.specs.Told.{ToldSheet};
ghost use Rattle.step_list.specs.Numbers.{numbers_call};
ghost use Rattle.capi.specs.Returned.{steps_left, packed_listing};

use packing::pack_written;
use rows::Format;
use step_list::numbers::follow_numbers;

#[unsafe(no_mangle)]
pub extern "C" fn plumanchor_steps(
    sheet: &[u8],
    operations: &[u8],
    variables: &[usize],
    numbers: &mut [usize],
    values: &mut [usize],
    first: &mut [u8],
    second: &mut [u8],
) -> u64
    ensures second_value { steps_left result numbers values first second ≡ packed_listing (numbers_call narrow sheet operations variables numbers values first second) }
    ensures told_sheet { ToldSheet narrow (truth_of narrow sheet.now) result first.new }
{
    pack_written(follow_numbers(
        sheet,
        Format::Narrow,
        operations,
        variables,
        numbers,
        values,
        first,
        second,
    ))
}

#[unsafe(no_mangle)]
pub extern "C" fn plumanchor_steps_wide(
    sheet: &[u8],
    operations: &[u8],
    variables: &[usize],
    numbers: &mut [usize],
    values: &mut [usize],
    first: &mut [u8],
    second: &mut [u8],
) -> u64
    ensures second_value { steps_left result numbers values first second ≡ packed_listing (numbers_call wide sheet operations variables numbers values first second) }
    ensures told_sheet { ToldSheet wide (truth_of wide sheet.now) result first.new }
{
    pack_written(follow_numbers(
        sheet,
        Format::Wide,
        operations,
        variables,
        numbers,
        values,
        first,
        second,
    ))
}
