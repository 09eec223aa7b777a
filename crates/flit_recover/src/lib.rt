//! Recovery: from the words that a crash left alone, the keys and values of the map and the rows that are free.
#![tactic(auto)]

mod counting;
mod found;
mod laws;
mod list_walk;
mod marks;
mod pairs;
mod recovery;
#[cfg(test)]
mod tests;
mod tree_walk;

pub use counting::count_keys;
pub use flit_model::Recovered;
pub use found::Damage;
pub use laws::{one_damage_of_lists, one_damage_of_trees};
pub use recovery::{fresh, recover, recover_owned, recover_view};
