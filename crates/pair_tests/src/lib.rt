// The tests of a strategy's sheet by its own rows: that its matrix is one of pairs, that these cover exactly a side's variables, and
// that no function reads what it may not.
#![tactic(auto)]

pub mod cover;
pub mod form;
pub mod levels;
