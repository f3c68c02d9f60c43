// Decide, Join and Split for callers in C and Rust, thin over the proved operations, in an archive of their own. Each is packed once, for any
// format, and exported by a name for narrow sheets and one for wide ones.
#![tactic(auto)]

pub mod deciding;
pub mod joining;
pub mod splitting;
