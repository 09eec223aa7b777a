//! The tree as a structure, and the laws that it keeps.
#![tactic(auto)]

mod laws;

pub use laws::trees_are_lawful;
