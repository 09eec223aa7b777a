//! A list or a hash table as a structure, and the laws that it keeps.
#![tactic(auto)]

mod laws;

pub use laws::lists_are_lawful;
