// Response, Strategy and Claim for callers in C and Rust (Strategy 1), thin over the proved operations, in an archive of their own. Each is
// packed once, for any format, and exported by a name for narrow sheets and one for wide ones.
#![tactic(auto)]

pub mod claiming;
pub mod responding;
pub mod winning;
