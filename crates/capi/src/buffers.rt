// Operations in work buffers.
ghost use Rattle.std.specs.Prelude.{◌≡◌};
ghost use Rattle.sheet.specs.Format.{narrow, wide};
ghost use Rattle.sheet.specs.Operations.{solve_call};
ghost use Rattle.sheet.specs.Order.{compare_call};
ghost use Rattle.sheet.specs.Guards.{guards_call};
ghost use Rattle.sheet.specs.Truthful.{truth_of};
ghost use Rattle.rows.specs.Formats.{format_of};
ghost use Rattle.capi.specs.Returned.{buffers_left, packed_solving, packed_comparing, guards_left, packed_guarding};
ghost use Rattle.packing.specs.Told.{ToldSolve, ToldGuards};

use packing::{pack_compared, pack_guarded, pack_solved};
use rows::Format;

// Solve: refusal number and place; or a word, the counts and the variable stopped at.
fn solve(sheet: &[u8], f: Format, first: &mut [u8], second: &mut [u8]) -> u64
    ensures second_value { buffers_left result first second ≡ packed_solving (solve_call (format_of f) sheet.now first.old second.old) }
    ensures told_solve { ToldSolve (format_of f) (truth_of (format_of f) sheet.now) result first.new }
{
    pack_solved(solve::solve(sheet, f, first, second))
}

#[unsafe(no_mangle)]
pub extern "C" fn plumanchor_solve(sheet: &[u8], first: &mut [u8], second: &mut [u8]) -> u64
    ensures second_value { buffers_left result first second ≡ packed_solving (solve_call narrow sheet.now first.old second.old) }
    ensures told_solve { ToldSolve narrow (truth_of narrow sheet.now) result first.new }
{
    solve(sheet, Format::Narrow, first, second)
}

#[unsafe(no_mangle)]
pub extern "C" fn plumanchor_solve_wide(sheet: &[u8], first: &mut [u8], second: &mut [u8]) -> u64
    ensures second_value { buffers_left result first second ≡ packed_solving (solve_call wide sheet.now first.old second.old) }
    ensures told_solve { ToldSolve wide (truth_of wide sheet.now) result first.new }
{
    solve(sheet, Format::Wide, first, second)
}

// Compare: which sheet is refused, with number and place; or 0 before, 1 equal, 2 after.
fn compare(a: &[u8], b: &[u8], f: Format, first: &mut [u8], second: &mut [u8]) -> u64
    ensures { buffers_left result first second ≡ packed_comparing (compare_call (format_of f) a.now b.now first.old second.old) }
{
    pack_compared(sort_compare::compare::compare(a, b, f, first, second))
}

#[unsafe(no_mangle)]
pub extern "C" fn plumanchor_compare(a: &[u8], b: &[u8], first: &mut [u8], second: &mut [u8]) -> u64
    ensures { buffers_left result first second ≡ packed_comparing (compare_call narrow a.now b.now first.old second.old) }
{
    compare(a, b, Format::Narrow, first, second)
}

#[unsafe(no_mangle)]
pub extern "C" fn plumanchor_compare_wide(
    a: &[u8],
    b: &[u8],
    first: &mut [u8],
    second: &mut [u8],
) -> u64
    ensures { buffers_left result first second ≡ packed_comparing (compare_call wide a.now b.now first.old second.old) }
{
    compare(a, b, Format::Wide, first, second)
}

// Guards, with an output: refusal number and place; the initial run's answer, as Solve's; or the length of the kept children's sheet and
// the count.
fn guards(sheet: &[u8], f: Format, out: &mut [u8], first: &mut [u8], second: &mut [u8]) -> u64
    ensures second_value { guards_left result out first second ≡ packed_guarding (guards_call (format_of f) sheet.now out.old first.old second.old) }
    ensures told_guards { ToldGuards (format_of f) sheet.now result out.new }
{
    pack_guarded(guards::guards(sheet, f, out, first, second))
}

#[unsafe(no_mangle)]
pub extern "C" fn plumanchor_guards(
    sheet: &[u8],
    out: &mut [u8],
    first: &mut [u8],
    second: &mut [u8],
) -> u64
    ensures second_value { guards_left result out first second ≡ packed_guarding (guards_call narrow sheet.now out.old first.old second.old) }
    ensures told_guards { ToldGuards narrow sheet.now result out.new }
{
    guards(sheet, Format::Narrow, out, first, second)
}

#[unsafe(no_mangle)]
pub extern "C" fn plumanchor_guards_wide(
    sheet: &[u8],
    out: &mut [u8],
    first: &mut [u8],
    second: &mut [u8],
) -> u64
    ensures second_value { guards_left result out first second ≡ packed_guarding (guards_call wide sheet.now out.old first.old second.old) }
    ensures told_guards { ToldGuards wide sheet.now result out.new }
{
    guards(sheet, Format::Wide, out, first, second)
}
