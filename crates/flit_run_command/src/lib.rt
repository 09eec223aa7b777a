//! The command `run`, from the text of a trace to what is written of its run on threads.
#![tactic(auto)]

mod run;

pub use run::{Ended, flit_run};
