// QDIMACS 1.1 in (N1), on the bytes of a text: its header's line, and the lists below it written as a sheet. `reader` puts both together.
#![tactic(auto)]

pub mod body;
pub mod clauses;
pub mod header;
pub mod marks;
pub mod prefix;
pub mod write;
