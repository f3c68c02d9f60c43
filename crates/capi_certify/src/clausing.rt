// Clauses: refusal number and place, or the length of the sheet of clauses.
ghost use Rattle.std.specs.Prelude.{◌≡◌};
ghost use Rattle.sheet.specs.Format.{narrow, wide};
ghost use Rattle.sheet.specs.Clauses.{clauses_call};
ghost use Rattle.sheet.specs.Truthful.{truth_of};
ghost use Rattle.rows.specs.Formats.{format_of};
ghost use Rattle.packing.specs.Returned.{returned, packed_writing};
ghost use Rattle.packing.specs.Told.{ToldSheet};

use packing::pack_written;
use rows::Format;

fn clauses(sheet: &[u8], f: Format, out: &mut [u8]) -> u64
    ensures out_after { returned result out.new ≡ packed_writing (clauses_call (format_of f) sheet.now out.old) }
    ensures told_sheet { ToldSheet (format_of f) (truth_of (format_of f) sheet.now) result out.new }
{
    pack_written(clauses::clauses(sheet, f, out))
}

#[unsafe(no_mangle)]
pub extern "C" fn plumanchor_clauses(sheet: &[u8], out: &mut [u8]) -> u64
    ensures out_after { returned result out.new ≡ packed_writing (clauses_call narrow sheet.now out.old) }
    ensures told_sheet { ToldSheet narrow (truth_of narrow sheet.now) result out.new }
{
    clauses(sheet, Format::Narrow, out)
}

#[unsafe(no_mangle)]
pub extern "C" fn plumanchor_clauses_wide(sheet: &[u8], out: &mut [u8]) -> u64
    ensures out_after { returned result out.new ≡ packed_writing (clauses_call wide sheet.now out.old) }
    ensures told_sheet { ToldSheet wide (truth_of wide sheet.now) result out.new }
{
    clauses(sheet, Format::Wide, out)
}
