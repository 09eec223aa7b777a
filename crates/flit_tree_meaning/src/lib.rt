//! That the code of the tree (`flit_tree`, by its steps) means what the crew makes of its machines,
//! of each operation and with no premise on it; and that a hand's rows fit what the code packs into
//! links.
#![tactic(auto)]

mod laws;

pub use laws::{hands_fit, tree_means};
