//! The bounds of a durable structure that stands on the shared proof: how an operation's counts go on, how many events
//! it has to go, and how many one try makes.
//!
//! A structure says what may follow the machine that an operation is in, and, where the events of a try are bounded, how
//! many are allowed (`Limits`), and shows the obligations `KeepsCounts` and `KeepsLimits`. From them and from `Keeps` come
//! the laws of its trait on tallies, spare rows, the number to go and what is licensed.
#![tactic(auto)]

mod laws;

pub use laws::{machines_fall, wins_tell, written_tell};
