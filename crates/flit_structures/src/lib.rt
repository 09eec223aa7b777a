//! The structure that a trace names, where it starts, and that it opens there and the trace can be played.
#![tactic(auto)]

mod laws;
mod reports;
mod runs;
mod starts;
#[cfg(test)]
mod tests;
mod texts;

pub use laws::{
    heads_open, right_traces_are_answered, rooms_are_free, traces_open, traces_play,
    traces_say_headline,
};
pub use reports::told;
pub use runs::{Wanted, image_of_run, text_of_run};
pub use starts::fresh_start;
pub use texts::{NoText, owned_trace_of, start_in, text_of_trace};
