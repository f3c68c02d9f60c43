// The reader of QDIMACS (N1): refusal number and place, or the length of the text's sheet.
ghost use Rattle.std.specs.Prelude.{◌≡◌};
ghost use Rattle.formula.specs.Truth.{truth};
ghost use Rattle.sheet.specs.Format.{narrow, wide};
ghost use Rattle.sheet.specs.Qdimacs.{qdimacs, qdimacs_call};
ghost use Rattle.rows.specs.Formats.{format_of};
ghost use Rattle.capi.specs.Returned.{output_left, packed_writing};
ghost use Rattle.packing.specs.Told.{ToldSheet};

use packing::pack_written;
use rows::Format;

fn qdimacs(text: &[u8], f: Format, out: &mut [u8]) -> u64
    ensures out_value { output_left result out ≡ packed_writing (qdimacs_call (format_of f) text.now out.old) }
    ensures told_sheet { ToldSheet (format_of f) (truth (qdimacs text.now)) result out.new }
{
    pack_written(reader::qdimacs(text, f, out))
}

#[unsafe(no_mangle)]
pub extern "C" fn plumanchor_qdimacs(text: &[u8], out: &mut [u8]) -> u64
    ensures out_value { output_left result out ≡ packed_writing (qdimacs_call narrow text.now out.old) }
    ensures told_sheet { ToldSheet narrow (truth (qdimacs text.now)) result out.new }
{
    qdimacs(text, Format::Narrow, out)
}

#[unsafe(no_mangle)]
pub extern "C" fn plumanchor_qdimacs_wide(text: &[u8], out: &mut [u8]) -> u64
    ensures out_value { output_left result out ≡ packed_writing (qdimacs_call wide text.now out.old) }
    ensures told_sheet { ToldSheet wide (truth (qdimacs text.now)) result out.new }
{
    qdimacs(text, Format::Wide, out)
}
