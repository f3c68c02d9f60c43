// The variables that depend on a universal variable one block out ("Universal variables one block out"): those of the existential block
// with a literal in its relevant subtree, those with one in the relevant subtree of a depending one, and so on. A set of variables has a
// bit for each number, in words of 64 bits.
#![tactic(auto)]

use rows::Layout;

pub mod answer;
pub mod block;
pub mod closure;
pub mod mark;

// A variable of a sheet: the sheet's layout, the variable's prefix row and its number.
#[derive(Clone, Copy)]
pub struct Target {
    pub layout: Layout,
    pub row: usize,
    pub variable: usize,
}
