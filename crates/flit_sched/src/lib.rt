//! Runs of a durable structure under a given order of turns.
#![tactic(auto)]

mod books;
mod ending;
mod histories;
mod history_laws;
#[cfg(test)]
mod history_tests;
mod images;
mod opening;
mod opening_laws;
mod players;
mod positions;
mod runs;
mod seats;
mod settling;
mod starting;
mod turning;

pub use history_laws::histories_fit;
pub use opening_laws::recovered_opens;
pub use runs::{Sched, Turn};
