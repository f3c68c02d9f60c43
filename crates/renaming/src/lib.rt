// The copies' variables in the step one block out (N6): their numbers, the tables of the two copies, and the rows that close the prefix.
#![tactic(auto)]

pub mod numbers;
pub mod prefix;
