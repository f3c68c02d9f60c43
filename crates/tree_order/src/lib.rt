// Trees put in order by a table of row numbers. The sheet stays as it is; entries of the table move, a subtree as one run.
#![tactic(auto)]

pub mod compare;
pub mod merging;
pub mod table;
