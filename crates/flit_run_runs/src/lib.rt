//! Runs the works of a trace on threads, on any structure, and makes the report that the command `run` is to tell of it.
#![tactic(auto)]

mod counting;
mod lines;
mod reports;
mod running;
mod summaries;
mod telling;

pub use lines::lines_of_calls;
pub use reports::{image_of_threads, report_of_threads};
pub use running::run_trace;
pub use summaries::summary_of_threads;
