//! What a search of a durable external search tree knows: the edge at which it stands, the edge from which it would cut
//! rows out, and what the leaf at its end tells of its key. No worker and no machine is in it: what an operation depends
//! on is a list of words with versions.
#![tactic(auto)]

mod laws;

pub use laws::knowledge;
