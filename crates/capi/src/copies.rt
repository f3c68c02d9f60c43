// The step one block out (N6): refusal number and place; or the new sheet's length, how many variables are copied and the lowest of their
// old numbers.
ghost use Rattle.std.specs.Prelude.{◌≡◌};
ghost use Rattle.sheet.specs.Format.{narrow, wide};
ghost use Rattle.sheet.specs.Truthful.{truth_of};
ghost use Rattle.rows.specs.Formats.{format_of};
ghost use Rattle.outer.specs.Answers.{outer_written};
ghost use Rattle.capi.specs.Returned.{output_left, packed_copying};
ghost use Rattle.packing.specs.Told.{ToldCopied};

use packing::copies::pack_copied;
use rows::Format;

fn outer(sheet: &[u8], f: Format, x: usize, out: &mut [u8]) -> u64
    ensures out_value { output_left result out ≡ packed_copying (outer_written (format_of f) sheet.now x out.old) }
    ensures told_copied { ToldCopied (format_of f) (truth_of (format_of f) sheet.now) result out.new }
{
    pack_copied(outer::outer(sheet, f, x, out))
}

#[unsafe(no_mangle)]
pub extern "C" fn plumanchor_outer(sheet: &[u8], x: usize, out: &mut [u8]) -> u64
    ensures out_value { output_left result out ≡ packed_copying (outer_written narrow sheet.now x out.old) }
    ensures told_copied { ToldCopied narrow (truth_of narrow sheet.now) result out.new }
{
    outer(sheet, Format::Narrow, x, out)
}

#[unsafe(no_mangle)]
pub extern "C" fn plumanchor_outer_wide(sheet: &[u8], x: usize, out: &mut [u8]) -> u64
    ensures out_value { output_left result out ≡ packed_copying (outer_written wide sheet.now x out.old) }
    ensures told_copied { ToldCopied wide (truth_of wide sheet.now) result out.new }
{
    outer(sheet, Format::Wide, x, out)
}
