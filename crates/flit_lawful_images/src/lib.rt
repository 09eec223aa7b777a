//! Recovery of an image that is known to be lawful, as a crash leaves it: it is Ok, with the image's map.
#![tactic(auto)]

mod recovering;

pub use recovering::{count_lawful_keys, recover_lawful, recover_lawful_owned};
