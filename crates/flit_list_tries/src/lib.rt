//! The events of a try of a list or a hash table on the crew: how many one search makes at most, by the keys that are
//! known (`ListTries`), whatever others do; and with them all the bounds of its limits, `list_limits`.
#![tactic(auto)]

mod laws;

pub use laws::{lists_keep_bounds, lists_keep_tries};
