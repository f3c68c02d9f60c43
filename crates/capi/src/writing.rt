// Operations that write a sheet to an output: refusal number and place, or the new sheet's length.
ghost use Rattle.std.specs.Prelude.{◌≡◌};
ghost use Rattle.sheet.specs.Format.{narrow, wide};
ghost use Rattle.sheet.specs.Operations.{tidy_call, settle_call, expand_call, execute_call, reduce_call};
ghost use Rattle.sheet.specs.Order.{sort_call};
ghost use Rattle.sheet.specs.Conversion.{to_wide_call, to_narrow_call};
ghost use Rattle.sheet.specs.Truthful.{truth_of};
ghost use Rattle.rows.specs.Formats.{format_of};
ghost use Rattle.packing.specs.Told.{ToldSheet};
ghost use Rattle.capi.specs.Returned.{output_left, packed_writing};

use packing::pack_written;
use rows::Format;

fn tidy(sheet: &[u8], f: Format, out: &mut [u8]) -> u64
    ensures out_value { output_left result out ≡ packed_writing (tidy_call (format_of f) sheet.now out.old) }
    ensures told_sheet { ToldSheet (format_of f) (truth_of (format_of f) sheet.now) result out.new }
{
    pack_written(tidying::tidy(sheet, f, out))
}

#[unsafe(no_mangle)]
pub extern "C" fn plumanchor_tidy(sheet: &[u8], out: &mut [u8]) -> u64
    ensures out_value { output_left result out ≡ packed_writing (tidy_call narrow sheet.now out.old) }
    ensures told_sheet { ToldSheet narrow (truth_of narrow sheet.now) result out.new }
{
    tidy(sheet, Format::Narrow, out)
}

#[unsafe(no_mangle)]
pub extern "C" fn plumanchor_tidy_wide(sheet: &[u8], out: &mut [u8]) -> u64
    ensures out_value { output_left result out ≡ packed_writing (tidy_call wide sheet.now out.old) }
    ensures told_sheet { ToldSheet wide (truth_of wide sheet.now) result out.new }
{
    tidy(sheet, Format::Wide, out)
}

fn settle(sheet: &[u8], f: Format, x: usize, out: &mut [u8]) -> u64
    ensures out_value { output_left result out ≡ packed_writing (settle_call (format_of f) sheet.now x out.old) }
    ensures told_sheet { ToldSheet (format_of f) (truth_of (format_of f) sheet.now) result out.new }
{
    pack_written(settle::settle(sheet, f, x, out))
}

#[unsafe(no_mangle)]
pub extern "C" fn plumanchor_settle(sheet: &[u8], x: usize, out: &mut [u8]) -> u64
    ensures out_value { output_left result out ≡ packed_writing (settle_call narrow sheet.now x out.old) }
    ensures told_sheet { ToldSheet narrow (truth_of narrow sheet.now) result out.new }
{
    settle(sheet, Format::Narrow, x, out)
}

#[unsafe(no_mangle)]
pub extern "C" fn plumanchor_settle_wide(sheet: &[u8], x: usize, out: &mut [u8]) -> u64
    ensures out_value { output_left result out ≡ packed_writing (settle_call wide sheet.now x out.old) }
    ensures told_sheet { ToldSheet wide (truth_of wide sheet.now) result out.new }
{
    settle(sheet, Format::Wide, x, out)
}

fn expand(sheet: &[u8], f: Format, x: usize, out: &mut [u8]) -> u64
    ensures out_value { output_left result out ≡ packed_writing (expand_call (format_of f) sheet.now x out.old) }
    ensures told_sheet { ToldSheet (format_of f) (truth_of (format_of f) sheet.now) result out.new }
{
    pack_written(expand::expand(sheet, f, x, out))
}

#[unsafe(no_mangle)]
pub extern "C" fn plumanchor_expand(sheet: &[u8], x: usize, out: &mut [u8]) -> u64
    ensures out_value { output_left result out ≡ packed_writing (expand_call narrow sheet.now x out.old) }
    ensures told_sheet { ToldSheet narrow (truth_of narrow sheet.now) result out.new }
{
    expand(sheet, Format::Narrow, x, out)
}

#[unsafe(no_mangle)]
pub extern "C" fn plumanchor_expand_wide(sheet: &[u8], x: usize, out: &mut [u8]) -> u64
    ensures out_value { output_left result out ≡ packed_writing (expand_call wide sheet.now x out.old) }
    ensures told_sheet { ToldSheet wide (truth_of wide sheet.now) result out.new }
{
    expand(sheet, Format::Wide, x, out)
}

fn execute(sheet: &[u8], f: Format, x: usize, ceiling: usize, out: &mut [u8]) -> u64
    ensures out_value { output_left result out ≡ packed_writing (execute_call (format_of f) sheet.now x ceiling out.old) }
    ensures told_sheet { ToldSheet (format_of f) (truth_of (format_of f) sheet.now) result out.new }
{
    pack_written(expand::execute(sheet, f, x, ceiling, out))
}

#[unsafe(no_mangle)]
pub extern "C" fn plumanchor_execute(sheet: &[u8], x: usize, ceiling: usize, out: &mut [u8]) -> u64
    ensures out_value { output_left result out ≡ packed_writing (execute_call narrow sheet.now x ceiling out.old) }
    ensures told_sheet { ToldSheet narrow (truth_of narrow sheet.now) result out.new }
{
    execute(sheet, Format::Narrow, x, ceiling, out)
}

#[unsafe(no_mangle)]
pub extern "C" fn plumanchor_execute_wide(
    sheet: &[u8],
    x: usize,
    ceiling: usize,
    out: &mut [u8],
) -> u64
    ensures out_value { output_left result out ≡ packed_writing (execute_call wide sheet.now x ceiling out.old) }
    ensures told_sheet { ToldSheet wide (truth_of wide sheet.now) result out.new }
{
    execute(sheet, Format::Wide, x, ceiling, out)
}

fn reduce(sheet: &[u8], f: Format, out: &mut [u8]) -> u64
    ensures out_value { output_left result out ≡ packed_writing (reduce_call (format_of f) sheet.now out.old) }
    ensures told_sheet { ToldSheet (format_of f) (truth_of (format_of f) sheet.now) result out.new }
{
    pack_written(reduce::reduce(sheet, f, out))
}

#[unsafe(no_mangle)]
pub extern "C" fn plumanchor_reduce(sheet: &[u8], out: &mut [u8]) -> u64
    ensures out_value { output_left result out ≡ packed_writing (reduce_call narrow sheet.now out.old) }
    ensures told_sheet { ToldSheet narrow (truth_of narrow sheet.now) result out.new }
{
    reduce(sheet, Format::Narrow, out)
}

#[unsafe(no_mangle)]
pub extern "C" fn plumanchor_reduce_wide(sheet: &[u8], out: &mut [u8]) -> u64
    ensures out_value { output_left result out ≡ packed_writing (reduce_call wide sheet.now out.old) }
    ensures told_sheet { ToldSheet wide (truth_of wide sheet.now) result out.new }
{
    reduce(sheet, Format::Wide, out)
}

fn sort(sheet: &[u8], f: Format, out: &mut [u8]) -> u64
    ensures out_value { output_left result out ≡ packed_writing (sort_call (format_of f) sheet.now out.old) }
    ensures told_sheet { ToldSheet (format_of f) (truth_of (format_of f) sheet.now) result out.new }
{
    pack_written(sort_compare::sort::sort(sheet, f, out))
}

#[unsafe(no_mangle)]
pub extern "C" fn plumanchor_sort(sheet: &[u8], out: &mut [u8]) -> u64
    ensures out_value { output_left result out ≡ packed_writing (sort_call narrow sheet.now out.old) }
    ensures told_sheet { ToldSheet narrow (truth_of narrow sheet.now) result out.new }
{
    sort(sheet, Format::Narrow, out)
}

#[unsafe(no_mangle)]
pub extern "C" fn plumanchor_sort_wide(sheet: &[u8], out: &mut [u8]) -> u64
    ensures out_value { output_left result out ≡ packed_writing (sort_call wide sheet.now out.old) }
    ensures told_sheet { ToldSheet wide (truth_of wide sheet.now) result out.new }
{
    sort(sheet, Format::Wide, out)
}

// Conversion to the wide format: the length is the wide sheet's.
#[unsafe(no_mangle)]
pub extern "C" fn plumanchor_widen(sheet: &[u8], out: &mut [u8]) -> u64
    ensures out_value { output_left result out ≡ packed_writing (to_wide_call sheet.now out.old) }
    ensures told_sheet { ToldSheet wide (truth_of narrow sheet.now) result out.new }
{
    pack_written(conversion::to_wide(sheet, out))
}

// Conversion to the narrow format: the length is the narrow sheet's.
#[unsafe(no_mangle)]
pub extern "C" fn plumanchor_narrow(sheet: &[u8], out: &mut [u8]) -> u64
    ensures out_value { output_left result out ≡ packed_writing (to_narrow_call sheet.now out.old) }
    ensures told_sheet { ToldSheet narrow (truth_of wide sheet.now) result out.new }
{
    pack_written(conversion::to_narrow(sheet, out))
}
