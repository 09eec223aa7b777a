//! The tree under scheduled runs.
#![tactic(auto)]

mod opening;
#[cfg(test)]
mod tests;

pub use opening::open_tree;
