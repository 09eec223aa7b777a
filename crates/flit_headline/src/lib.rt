//! The headline of FliT, sentence by sentence, of the runs that turns lead to: shown from the one law on what runs promise.
#![tactic(auto)]

mod laws;

pub use laws::runs_keep_headline;
