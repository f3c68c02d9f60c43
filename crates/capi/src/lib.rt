// The operations for callers in C and Rust, thin over the proved ones; include/plumanchor.h declares them. Each is packed once, for any
// format, and exported by a name for narrow sheets and one for wide ones; a list of steps, which has seven arguments without a format,
// by each of its two names.
#![tactic(auto)]

pub mod buffers;
pub mod copies;
pub mod lists;
pub mod panel;
pub mod reading;
pub mod resuming;
pub mod texts;
pub mod writing;
