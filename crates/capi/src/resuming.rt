// Resume ("Carry a stopped run over", N13). The answer is packed as Solve's.
ghost use Rattle.std.specs.Prelude.{◌≡◌, not, eqb};
ghost use Rattle.sheet.specs.Format.{wide};
ghost use Rattle.sheet.specs.Resume.{named, resume_call};
ghost use Rattle.sheet.specs.Truthful.{truth_of};
ghost use Rattle.packing.specs.Told.{ToldSolve};
ghost use Rattle.resume.specs.Calls.{is_narrow};
ghost use Rattle.capi.specs.Returned.{buffers_left, packed_solving};

use packing::pack_solved;
use resume::Counts;
use rows::Format;

// Wide if `narrow` is 0.
fn named_format(narrow: usize) -> Format
    ensures { is_narrow result ≡ not (eqb narrow 0) }
{
    if narrow == 0 {
        return Format::Wide;
    }
    Format::Narrow
}

// Resume in two work buffers, from a wide sheet if `narrow` is 0, else from a narrow one: refusal number and place; or a word, the counts
// and the variable stopped at. Only the lower 16 bits of each count are returned.
#[unsafe(no_mangle)]
pub extern "C" fn plumanchor_resume(
    started: usize,
    settled: usize,
    expanded: usize,
    sheet: &[u8],
    narrow: usize,
    first: &mut [u8],
    second: &mut [u8],
) -> u64
    ensures second_value { buffers_left result first second ≡ packed_solving (resume_call started settled expanded sheet.now (not (eqb narrow 0)) first.old second.old) }
    ensures told_solve { ToldSolve wide (truth_of (named (not (eqb narrow 0))) sheet.now) result first.new }
{
    let counts = Counts {
        started,
        settled,
        expanded,
    };
    pack_solved(resume::resume(sheet, named_format(narrow), counts, first, second))
}
