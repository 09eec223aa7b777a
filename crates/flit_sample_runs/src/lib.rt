//! The sample under scheduled runs and on words that threads share: how the author of a structure opens it and drives it.
#![tactic(auto)]

mod opening;
mod ordering;
#[cfg(test)]
mod tests;
#[cfg(test)]
mod word_tests;
mod words;

pub use opening::open_sample;
pub use ordering::run_in_order;
pub use words::open_words;
