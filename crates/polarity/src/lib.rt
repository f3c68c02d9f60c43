// Whether a variable may be settled, and by which value ("Settle x"): by the signs of its literals and of its unit literals, which are the
// root or a child of the root. A table holds the signs of all variables, so that no variable costs a pass over the rows.
#![tactic(auto)]

pub mod table;
pub mod value;
