//! A map of at most one key as a structure, in a list's layout of one row, and the laws that it
//! keeps.
#![tactic(auto)]

mod laws;

pub use laws::one_key_is_lawful;
