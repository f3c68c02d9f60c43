// Split: refusal number and place, or the length of the sheet under the values.
ghost use Rattle.std.specs.Prelude.{◌≡◌};
ghost use Rattle.sheet.specs.Format.{narrow, wide};
ghost use Rattle.sheet.specs.Split.{split_call};
ghost use Rattle.rows.specs.Formats.{format_of};
ghost use Rattle.packing.specs.Returned.{returned, packed_writing};
ghost use Rattle.capi_decide.specs.Told.{ToldSplit};

use packing::pack_written;
use rows::Format;

fn split(sheet: &[u8], f: Format, values: &[u8], out: &mut [u8]) -> u64
    ensures out_after { returned result out.new ≡ packed_writing (split_call (format_of f) sheet.now values.now out.old) }
    ensures told_split { ToldSplit (format_of f) sheet.now values.now result out.new }
{
    pack_written(split::split(sheet, f, values, out))
}

#[unsafe(no_mangle)]
pub extern "C" fn plumanchor_split(sheet: &[u8], values: &[u8], out: &mut [u8]) -> u64
    ensures out_after { returned result out.new ≡ packed_writing (split_call narrow sheet.now values.now out.old) }
    ensures told_split { ToldSplit narrow sheet.now values.now result out.new }
{
    split(sheet, Format::Narrow, values, out)
}

#[unsafe(no_mangle)]
pub extern "C" fn plumanchor_split_wide(sheet: &[u8], values: &[u8], out: &mut [u8]) -> u64
    ensures out_after { returned result out.new ≡ packed_writing (split_call wide sheet.now values.now out.old) }
    ensures told_split { ToldSplit wide sheet.now values.now result out.new }
{
    split(sheet, Format::Wide, values, out)
}
