// Rows while they are tidied in place ("Tidy sheets"): an operator's argument holds how many rows its subtree covers, and rows that
// have gone are a dead segment.
#![tactic(auto)]

pub mod dead;
pub mod rules;
pub mod same;
pub mod walk;

// The kind of a dead segment's row, which no row of a sheet has.
pub const GONE: u8 = 0;
