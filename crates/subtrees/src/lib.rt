// The subtrees of a sheet's matrix, by the node row at which they start. Node rows are counted from the first of them.
#![tactic(auto)]

pub mod ends;
pub mod nodes;
pub mod relevant;
