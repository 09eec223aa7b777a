//! The command `make`, from its words to the trace that is written.
#![tactic(auto)]

mod make;

pub use make::flit_make;
