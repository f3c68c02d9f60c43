// The words of a text, one after the other: the core of every reader of texts.
#![tactic(auto)]

pub mod cursor;
pub mod literal;
pub mod numbers;
pub mod token;
