//! Plays a trace on any structure, and makes the report that the command `step` is to tell of it.
#![tactic(auto)]

mod counting;
mod lines;
mod opened;
mod playing;
mod reports;
mod summaries;
mod telling;
mod works;

pub use counting::{Counts, counts_of, no_lines, with_line};
pub use lines::{in_line_order, lines_of};
pub use opened::run_of;
pub use playing::play;
pub use reports::report_of_run;
pub use summaries::{summary_of, summary_of_run};
pub use telling::{count_rows, tell, version_of};
pub use works::works_of;
