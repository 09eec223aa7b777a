//! That the code of a list or a hash table (`flit_list`, by its steps) means what the crew makes of
//! its machines, of each operation and with no premise on it; and that hands fit what the code
//! packs into links.
#![tactic(auto)]

mod laws;

pub use laws::{hands_fit, lists_mean};
