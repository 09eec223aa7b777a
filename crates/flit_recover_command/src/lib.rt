//! The command `recover`, from the text of an image to the keys, the values and the free rows that are written.
#![tactic(auto)]

mod recover;

pub use recover::flit_recover;
