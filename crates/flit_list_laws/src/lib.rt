//! A list or a hash table on the crew: what its calls are to the crew (`ListAnatomy`), what a call knows at each place of
//! its way, of the links that its search remembers, of the row that it found or of its own row, and of the position at
//! which its key was absent or present (`Knowing`, `ListCrew`); and that they meet all that the crew asks.
#![tactic(auto)]

mod laws;

pub use laws::{lists_keep, loads};
