//! What is true of every run of a durable structure, under any order of turns: its calls and its history agree.
#![tactic(auto)]

mod laws;

pub use laws::{
    calls_stand_once, histories_stay, order_is_kept, runs_are_right, turns_keep_promises,
    turns_lead, turns_order_calls, updates_were_won,
};
