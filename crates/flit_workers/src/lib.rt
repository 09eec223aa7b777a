//! Workers: each makes the items of its Work in order through a pass of its own, in a thread of its own.
#![tactic(auto)]

mod ends;
mod gates;
mod gathered_laws;
mod gathering;
mod items;
mod rooms;
mod running;
mod worker;

pub use ends::End;
pub use gates::{Gate, NoGate};
pub use gathered_laws::ended_gather;
pub use gathering::gather;
pub use running::run_workers;
