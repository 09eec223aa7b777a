//! The report that the command `step` is to tell of a trace, and what is so of each such report: definitions and laws.
#![tactic(auto)]

mod laws;

pub use laws::plans_are_runs;
