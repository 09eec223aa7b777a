//! Harris's list, and a hash table of such lists: the calls, over every placement of tags.
#![tactic(auto)]

mod answering;
mod calls;
mod confirming;
mod inserting;
mod lists;
mod loading;
mod searching;

pub use lists::List;
