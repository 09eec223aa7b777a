//! The counts and the bounds of the tree's calls.
#![tactic(auto)]

mod laws;

pub use laws::{trees_count, trees_keep_limits};
