//! The generator of traces. From a seed it makes so many calls on a hash table, by workers who take turns, and writes them
//! as a trace.
//!
//! A state of 31 bits begins as the seed. A draw multiplies it by 1103515245, adds 12345, keeps the low 31 bits, and
//! answers the upper 15 of them. Each call takes two draws: one for its name (two inserts in four, one remove, one
//! contains), one for its key. The keys of a worker are those that have its number, less one, as their rest by the number
//! of workers, so no key belongs to two workers. The table has two rows for each call and each worker.
#![tactic(auto)]

mod draws;
mod laws;
#[cfg(test)]
mod tests;
mod texts;

pub use laws::{a_trace_is_made, keys_of_one_worker};
pub use texts::generator_text;
