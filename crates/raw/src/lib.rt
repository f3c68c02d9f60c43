// The raw sheets of Settle and Expand, written to the output before the tree is tidied there.
#![tactic(auto)]

pub mod expand;
pub mod runs;
pub mod settle;
