//! Structures that tell, before the Exchange by which a call takes effect, which row it links or
//! marks; and what their words and their crash images show of it. A wrapper announces the row and
//! tells after a crash whether the call took effect.
#![tactic(auto)]

mod lists;
mod marked;
#[cfg(test)]
mod tests;

pub use marked::Marked;
