//! The bounds of a map of at most one key on the crew: what may follow each machine of a call, and how many events a try
//! makes.
#![tactic(auto)]

mod laws;

pub use laws::one_key_is_bounded;
