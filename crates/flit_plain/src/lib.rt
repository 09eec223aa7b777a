//! Plain programs whose contracts are the definitions of the model, so that a test can run a definition on a small
//! input. They are slow, and those for a tree call themselves as deep as the tree is high: nothing of the product
//! stands on them.
#![tactic(auto)]

mod chains;
mod images;
mod placing;
mod playing;
mod reached;
#[cfg(test)]
mod tests;
mod trees;
mod words;

pub use images::{Found, is_lawful, recovery};
pub use placing::history;
pub use playing::play;
