//! The headline of FliT, sentence by sentence, of what the command `step` prints of a trace.
#![tactic(auto)]

mod laws;

pub use laws::{lines_are_numbered, reports_say_headline};
