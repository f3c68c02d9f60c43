// Copies rows from one sheet to another with a table that says what each variable's literals become. The output has the same format.
#![tactic(auto)]

use rows::Layout;

pub mod change;
pub mod copy;
pub mod table;
pub mod write;

// Entries that put a value in for a variable: each literal becomes a constant row.
pub const PUT_FALSE: u16 = 1025;

pub const PUT_TRUE: u16 = 1026;

// The rows `from` to `to` of a sheet.
#[derive(Clone, Copy)]
pub struct Span {
    pub from: usize,
    pub to: usize,
}

// The row of an output that is written next.
#[derive(Clone, Copy)]
pub struct Target {
    pub layout: Layout,
    pub at: usize,
}
