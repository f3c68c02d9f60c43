// Claim (Strategy 1): the claim that a strategy of any origin wins, written as a sheet of one quantifier. It has the truth that the side
// wants exactly if the strategy wins.
#![tactic(auto)]

ghost use Rattle.std.specs.Prelude.{◌≡◌};
ghost use Rattle.sheet.specs.Strategy.{claim_call};
ghost use Rattle.sheet.specs.Truthful.{TruthfulClaim};
ghost use Rattle.rows.specs.Formats.{format_of};
ghost use Rattle.rows.specs.Layouts.{format_in};
ghost use Rattle.checking.specs.Sheets.{Sheet};
ghost use Rattle.pair_tests.specs.Pairs.{side};
ghost use Rattle.claim.specs.Answers.{claimed_with, side_of};
ghost use Rattle.claim.specs.Inner.Plans.{ClaimFitting};

use crate::plan::plan_claim;
use crate::write::{Strategy, claim_into};
use checking::check;
use rows::fit::fits;
use rows::refusals::Refusal;
use rows::{Format, Layout, ROWS};

pub mod plan;
pub mod write;

// The side whose strategy it is.
#[derive(Clone, Copy, PartialEq, Eq, Debug)]
pub enum Side {
    Exists,
    ForAll,
}

// A refusal of the output, of the first sheet, or of the strategy's.
#[derive(Clone, Copy, PartialEq, Eq, Debug)]
pub enum ClaimRefusal {
    Output(Refusal),
    Sheet(Refusal),
    Strategy(Refusal),
}

fn is_exists(s: Side) -> bool
    ensures { side result ≡ side_of s }
{
    match s {
        Side::Exists => true,
        Side::ForAll => false,
    }
}

// Writes the claim of `n` pairs, whose sheet passed: 13 it doesn't fit the format's rows or the output.
fn claim_planned(
    b: &[u8],
    s: Layout,
    d: &[u8],
    strategy: Strategy,
    cuts: &[u16],
    out: &mut [u8],
) -> Result<usize, ClaimRefusal>
    requires { ClaimFitting b.now s d.now strategy cuts.now }
    ensures { claimed_with result out.new ≡ claim_call (format_in s) b.now (side strategy.exists) d.now out.old }
{
    let t = strategy.layout;
    if !fits(s.format, s.variables, s.nodes + 2 * t.nodes - 1, out.len()) {
        return Err(ClaimRefusal::Output(Refusal::NoRoom));
    }
    Ok(claim_into(b, s, d, strategy, cuts, out))
}

// Claims by two sheets that Check accepts, of these layouts.
fn claim_checked(
    b: &[u8],
    s: Layout,
    d: &[u8],
    t: Layout,
    exists: bool,
    out: &mut [u8],
) -> Result<usize, ClaimRefusal>
    requires { Sheet s.format b.now s × Sheet s.format d.now t }
    ensures { claimed_with result out.new ≡ claim_call (format_in s) b.now (side exists) d.now out.old }
{
    let mut cuts = [0u16; ROWS];
    let n = plan_claim(b, s, d, t, exists, &mut cuts).map_err(ClaimRefusal::Strategy)?;
    let strategy = Strategy { layout: t, exists };
    claim_planned(b, s, d, strategy, &cuts[..n + 1], out)
}

// Writes the claim that the strategy's sheet wins for a side of the sheet `b` to the front of `out`, with zeros behind it, and returns its
// length; or refuses a sheet or the output, and alters nothing.
pub fn claim(
    sheet: &[u8],
    f: Format,
    side: Side,
    strategy: &[u8],
    out: &mut [u8],
) -> Result<usize, ClaimRefusal>
    ensures out_after { claimed_with result out.new ≡ claim_call (format_of f) sheet.now (side_of side) strategy.now out.old }
    ensures truthful_claim { TruthfulClaim (format_of f) sheet.now (side_of side) strategy.now (claimed_with result out.new) }
{
    let s = check(sheet, f).map_err(ClaimRefusal::Sheet)?;
    let t = check(strategy, f).map_err(ClaimRefusal::Strategy)?;
    claim_checked(sheet, s, strategy, t, is_exists(side), out)
}
