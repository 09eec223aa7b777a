//! The Natarajan-Mittal tree: the calls, over every placement of tags.
#![tactic(auto)]

mod answering;
mod calls;
mod cleaning;
mod edges;
mod inserting;
mod seeking;
mod trees;

pub use trees::Tree;
