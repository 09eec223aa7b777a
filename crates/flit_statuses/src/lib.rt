//! How a command ends: the status, with the exit status and the line on standard error that stand for it, and what the
//! commands share, from an input that is read whole to an output that is written whole.
#![tactic(auto)]

mod answering;
mod lines;
mod status;
#[cfg(test)]
mod tests;

pub use answering::{Answering, answer_input, write_output};
pub use lines::{FaultLine, fault_line};
pub use status::{ImageFault, Status};
