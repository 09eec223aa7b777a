//! Traces: texts that say which structure is used and what its workers are to do.
#![tactic(auto)]

mod ahead;
mod drafts;
mod entries;
mod faults;
mod heads;
mod index;
mod laws;
mod reading;
mod scripts;
mod sentences;
mod stages;
mod steps;
#[cfg(test)]
mod tests;
mod traces;

pub use ahead::head_ahead;
pub use faults::{Bound, TraceError};
pub use heads::{Head, Place};
pub use laws::{merged_scripts, one_result, start_images, within_limits};
pub use reading::read_trace;
pub use scripts::{Script, Turns};
pub use sentences::one_sentence;
pub use traces::Trace;
