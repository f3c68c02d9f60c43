// Operations that write nothing.
ghost use Rattle.std.specs.Prelude.{◌≡◌, length, take, drop};
ghost use Rattle.sheet.specs.Format.{narrow, wide};
ghost use Rattle.sheet.specs.Check.{check};
ghost use Rattle.sheet.specs.Operations.{trial_call, part_call, quote_call};
ghost use Rattle.sheet.specs.Truthful.{truth_of};
ghost use Rattle.rows.specs.Formats.{format_of};
ghost use Rattle.part.specs.Places.{part_place};
ghost use Rattle.packing.specs.Packed.{packed_check, packed_trial, packed_quote};
ghost use Rattle.packing.specs.Told.{ToldTrial};

use packing::{pack_checked, pack_quoted, pack_tried};
use rows::Format;

// Check: refusal number and place, or V and N.
fn check(sheet: &[u8], f: Format) -> u64
    ensures { result ≡ packed_check (check (format_of f) sheet.now) }
{
    pack_checked(checking::check(sheet, f))
}

#[unsafe(no_mangle)]
pub extern "C" fn plumanchor_check(sheet: &[u8]) -> u64
    ensures { result ≡ packed_check (check narrow sheet.now) }
{
    check(sheet, Format::Narrow)
}

#[unsafe(no_mangle)]
pub extern "C" fn plumanchor_check_wide(sheet: &[u8]) -> u64
    ensures { result ≡ packed_check (check wide sheet.now) }
{
    check(sheet, Format::Wide)
}

// Trial: refusal number and place, or the verdict and the leaves tried.
fn trial(sheet: &[u8], f: Format) -> u64
    ensures value { result ≡ packed_trial (trial_call (format_of f) sheet.now) }
    ensures told_trial { ToldTrial (truth_of (format_of f) sheet.now) result }
{
    pack_tried(trial::trial(sheet, f))
}

#[unsafe(no_mangle)]
pub extern "C" fn plumanchor_trial(sheet: &[u8]) -> u64
    ensures value { result ≡ packed_trial (trial_call narrow sheet.now) }
    ensures told_trial { ToldTrial (truth_of narrow sheet.now) result }
{
    trial(sheet, Format::Narrow)
}

#[unsafe(no_mangle)]
pub extern "C" fn plumanchor_trial_wide(sheet: &[u8]) -> u64
    ensures value { result ≡ packed_trial (trial_call wide sheet.now) }
    ensures told_trial { ToldTrial (truth_of wide sheet.now) result }
{
    trial(sheet, Format::Wide)
}

// How many kind bytes the subtree at `node` covers, or 0 if the sheet or the node is bad. They begin at byte 4 + V + node of a narrow sheet
// and at byte 8 + V + node of a wide one.
fn part(sheet: &[u8], f: Format, node: usize) -> usize
    ensures value { result ≡ length (part_call (format_of f) sheet.now node) }
    ensures node_value { part_call (format_of f) sheet.now node ≡ take result (drop (part_place (format_of f) sheet.now node) sheet.now) }
{
    part::part(sheet, f, node).len()
}

#[unsafe(no_mangle)]
pub extern "C" fn plumanchor_part(sheet: &[u8], node: usize) -> usize
    ensures value { result ≡ length (part_call narrow sheet.now node) }
    ensures node_value { part_call narrow sheet.now node ≡ take result (drop (part_place narrow sheet.now node) sheet.now) }
{
    part(sheet, Format::Narrow, node)
}

#[unsafe(no_mangle)]
pub extern "C" fn plumanchor_part_wide(sheet: &[u8], node: usize) -> usize
    ensures value { result ≡ length (part_call wide sheet.now node) }
    ensures node_value { part_call wide sheet.now node ≡ take result (drop (part_place wide sheet.now node) sheet.now) }
{
    part(sheet, Format::Wide, node)
}

// Quote: refusal number and place, or the raw row count.
fn quote(sheet: &[u8], f: Format, x: usize) -> u64
    ensures { result ≡ packed_quote (quote_call (format_of f) sheet.now x) }
{
    pack_quoted(expand::quote::quote(sheet, f, x))
}

#[unsafe(no_mangle)]
pub extern "C" fn plumanchor_quote(sheet: &[u8], x: usize) -> u64
    ensures { result ≡ packed_quote (quote_call narrow sheet.now x) }
{
    quote(sheet, Format::Narrow, x)
}

#[unsafe(no_mangle)]
pub extern "C" fn plumanchor_quote_wide(sheet: &[u8], x: usize) -> u64
    ensures { result ≡ packed_quote (quote_call wide sheet.now x) }
{
    quote(sheet, Format::Wide, x)
}
