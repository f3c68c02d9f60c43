// Response: refusal number and place, or the length of the function's sheet.
ghost use Rattle.std.specs.Prelude.{◌≡◌};
ghost use Rattle.sheet.specs.Format.{narrow, wide};
ghost use Rattle.sheet.specs.Strategy.{response_call};
ghost use Rattle.rows.specs.Formats.{format_of};
ghost use Rattle.packing.specs.Returned.{returned, packed_writing};
ghost use Rattle.capi_strategy.specs.Told.{ToldResponse};

use packing::pack_written;
use rows::Format;

fn response(sheet: &[u8], f: Format, x: usize, out: &mut [u8]) -> u64
    ensures out_after { returned result out.new ≡ packed_writing (response_call (format_of f) sheet.now x out.old) }
    ensures told_response { ToldResponse (format_of f) sheet.now x result out.new }
{
    pack_written(response::response(sheet, f, x, out))
}

#[unsafe(no_mangle)]
pub extern "C" fn plumanchor_response(sheet: &[u8], x: usize, out: &mut [u8]) -> u64
    ensures out_after { returned result out.new ≡ packed_writing (response_call narrow sheet.now x out.old) }
    ensures told_response { ToldResponse narrow sheet.now x result out.new }
{
    response(sheet, Format::Narrow, x, out)
}

#[unsafe(no_mangle)]
pub extern "C" fn plumanchor_response_wide(sheet: &[u8], x: usize, out: &mut [u8]) -> u64
    ensures out_after { returned result out.new ≡ packed_writing (response_call wide sheet.now x out.old) }
    ensures told_response { ToldResponse wide sheet.now x result out.new }
{
    response(sheet, Format::Wide, x, out)
}
