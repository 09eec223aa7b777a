//! Callers of scheduled runs: they conclude from public clauses alone what a run promises where a crash ends it.
#![tactic(auto)]

mod crashes;

pub use crashes::{Crashed, crash_after};
