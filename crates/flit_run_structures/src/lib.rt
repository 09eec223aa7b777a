//! A trace run on threads, on the structure that it names: from its bytes to the text that is told.
#![tactic(auto)]

mod laws;
mod opening;
mod placed;
mod runs;
mod sources;
mod texts;

pub use laws::traces_run;
pub use runs::Wanted;
pub use texts::text_of_run;
