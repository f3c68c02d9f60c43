// The subtree that an expansion takes place in.

// The deepest operator above all chosen literals, or the one literal that is chosen: its node row, whether every child is relevant, E, and
// how many children are relevant, which is 0 for a literal.
#[derive(Clone, Copy)]
pub struct Relevant {
    pub operator: usize,
    pub all: bool,
    pub rows: usize,
    pub children: usize,
}
