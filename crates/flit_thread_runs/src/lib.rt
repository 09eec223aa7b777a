//! Works run on threads to the end of their structure: from its opening to what its close tells and recovery finds.
#![tactic(auto)]

mod running;

pub use running::{Ran, run_recovered, run_told};
