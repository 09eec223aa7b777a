//! The text of a report: what each worker did, the history, the counts, and what is left in the
//! structure.
//!
//! Each line ends with LF, its words are separated by one space, and its numbers are decimal. A word
//! of the machine is printed as `VERSION:VALUE`, with `t` behind it where it is tagged. A report of
//! version 2 also tells values. The lines come in this order, here with their meaning behind them:
//!
//! ```text
//! event 1 exchange 0 0:0 1:4t 0:0    worker, event, its word or slot, what it was given, its answer
//! call 1 insert 5 7 yes              worker, call, key, in version 2 the value, outcome
//! history 1 1 insert 5 7 yes         worker, the call's number, call, reply
//! worker 1 loads 1 omitted 1 queued 0 persists 3 failed 0 helped 0 tries 1
//! keys 5
//! values 7                           in version 2 alone
//! free 3
//! ```
//!
//! An outcome is `yes`, `no`, `value VALUE`, `full TICKET`, `worn WORD VERSION` or `stopped`. A
//! summary has six lines instead, each with its count: `calls`, `done`, `stopped`, `full`, `worn` and
//! `keys`.
#![tactic(auto)]

mod content;
mod lines;
mod recovery;
mod summary;
#[cfg(test)]
mod tests;
mod text;
mod words;

pub use content::{Line, Report, Shown};
pub use recovery::recovery_text;
pub use text::report_text;
