//! The words of the command line, and the command that they name.
#![tactic(auto)]

mod commands;
mod word_list;

pub use commands::{Command, Making, RunOption, StepOption, command_of, making_of, one_command};
pub use word_list::Words;
