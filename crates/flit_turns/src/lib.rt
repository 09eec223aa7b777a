//! Turns as a trace asks for them: so many of one worker, or all until it is out, with the events that they make shown.
#![tactic(auto)]

mod alone;
mod events;
mod giving;

pub use alone::{run_all, run_alone};
pub use events::Events;
pub use giving::give_turns;
