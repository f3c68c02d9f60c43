// Sort and Compare (N14): all children of a sheet in order, and two sheets in order.
#![tactic(auto)]

pub mod compare;
pub mod sort;
