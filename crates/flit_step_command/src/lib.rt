//! The command `step`, from the text of a trace to what is written of its run.
#![tactic(auto)]

mod step;

pub use step::flit_step;
