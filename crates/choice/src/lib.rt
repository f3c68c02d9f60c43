// What Solve takes next ("Solve"): the variable to settle, and if there is none the variable to expand.
#![tactic(auto)]

pub mod expand;
pub mod settle;
