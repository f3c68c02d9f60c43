// Where an expansion takes place: the relevant subtree of a matrix for a set of literals, and the rows that the expansion adds ("Expand
// x"). The set is given by a chain: the rows of its first and its last literal, and a table that leads from each literal to the next, as
// crate `occurrences` fills it for all variables. The time is that of the literals, the path to them and the children passed over, not of a
// pass over all rows.
#![tactic(auto)]

pub mod cuts;
pub mod subtree;
pub mod variable;

// The rows of the first and the last literal of a chain.
#[derive(Clone, Copy, PartialEq, Eq, Debug)]
pub struct Range {
    pub first: usize,
    pub last: usize,
}

// An operator's node row, and that of the first literal of a chain, which stands behind it.
#[derive(Clone, Copy, PartialEq, Eq, Debug)]
pub struct Site {
    pub operator: usize,
    pub first: usize,
}
