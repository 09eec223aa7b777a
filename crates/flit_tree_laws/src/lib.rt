//! The tree on the crew: what its calls are to the crew (`TreeAnatomy`), what a call knows at each
//! place of its way, of the edges that its seek remembers, of its own rows and of what its leaf told
//! of the key (`Knowing`, `TreeCrew`); and that they meet all that the crew asks.
#![tactic(auto)]

mod laws;

pub use laws::trees_keep;
