//! What the commands have to do with the outside: sources of bytes and sinks for bytes.
#![tactic(auto)]

mod input;
mod mem_sink;
mod mem_source;
mod outside;
mod standard;
#[cfg(test)]
mod tests;
mod whole;

pub use input::{InputError, read_input};
pub use mem_sink::MemSink;
pub use mem_source::MemSource;
pub use outside::{Failed, Sink, Source};
pub use standard::{StdSink, StdSource};
pub use whole::{ReadError, read_all, write_all};
