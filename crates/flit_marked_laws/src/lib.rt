//! What a list or a hash table keeps besides the laws of a structure, for a wrapper that tells
//! after a crash which calls took effect: that it may write rows of its own beside the structure's
//! (`Foreign`); which row each Exchange links or marks (`Marked`), whose marks stand in the words,
//! and what a crash image shows of both.
//!
//! That a row or a mark stays whose update it is: the crew's proof once more, with more kept of the
//! heap (`Strengthening`), so that whatever happens keeps it (`Lasting`).
#![tactic(auto)]

mod laws;

pub use laws::{lists_are_marked, second_stores_break};
