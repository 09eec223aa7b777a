//! The report that the command `run` is to tell of a trace, and what is so of the run that it tells of: definitions and laws.
#![tactic(auto)]

mod laws;

pub use laws::promises_tell_traces;
