//! The commands: one call that runs the command which the words name.
#![tactic(auto)]

mod dispatch;
#[cfg(test)]
mod large_tests;
#[cfg(test)]
mod replays;
#[cfg(test)]
mod stop_tests;
#[cfg(test)]
mod tests;

pub use dispatch::flit;
pub use flit_commands::Words;
pub use flit_make_command::flit_make;
pub use flit_outside::{Failed, MemSink, MemSource, Sink, Source, StdSink, StdSource};
pub use flit_recover_command::flit_recover;
pub use flit_run_command::{Ended, flit_run};
pub use flit_statuses::{FaultLine, ImageFault, Status, fault_line};
pub use flit_step_command::flit_step;
