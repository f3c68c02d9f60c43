// What the operations on one variable and Solve's steps share: the tests that come first, and a raw sheet written and tidied.
#![tactic(auto)]

pub mod admission;
pub mod expanding;
pub mod settling;
pub mod survey;
