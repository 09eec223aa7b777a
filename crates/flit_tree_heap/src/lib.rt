//! The heap of a durable external search tree, after Natarajan and Mittal: what stays true of its
//! words, their shadows and its updates (`IsKept`), and what a change leaves (`IsLater`). No worker is
//! in it: what an operation depends on is a list of words with versions.
//!
//! All of it is said of the views of a heap: at each place the word or its shadow, each place chosen
//! by itself. So the words, the shadows, each crash image, and what a worker has queued are cases of
//! one statement. A write-back makes the views fewer; an exchange changes the tree of each view at
//! one edge.
#![tactic(auto)]

mod laws;

pub use laws::{examples, exchanges, kept_heaps, openings, searches, walks};
