//! Runs of a durable structure on words that threads share.
#![tactic(auto)]

mod answering;
mod closing;
mod evicting;
mod loading;
mod log_laws;
mod opens;
mod passes;
mod plays;
mod rule_laws;
mod running;
mod seats;
mod tallies;
mod told;
mod view_laws;
mod views;

pub use log_laws::logs_settle;
pub use passes::{Holder, Pass, Rest, Within};
pub use plays::{Giving, Starting};
pub use rule_laws::{rule_opens, rule_says, seats_keep, steps_keep};
pub use running::Running;
pub use told::{Evidence, Known, Telling, Told};
pub use view_laws::events_counted;
pub use views::{Logged, Made, Origin, Post, Rule, Start, View};
