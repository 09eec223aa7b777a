//! A map of at most one key on the crew: its anatomy, what is kept true of its words, and what its
//! calls know.
#![tactic(auto)]

mod laws;

pub use laws::one_key_keeps;
