//! The bounds of a list or a hash table on the crew: what may follow each machine of a call (`ListLimits`), the counts that
//! a call carries from machine to machine, and where it begins a search again.
#![tactic(auto)]

mod laws;

pub use laws::{lists_count, lists_keep_limits};
