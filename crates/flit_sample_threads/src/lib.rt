//! The sample on threads, as tests: its workers run to their ends, and what their callers saw stands in one history.
#![tactic(auto)]

#[cfg(test)]
mod history_tests;
#[cfg(test)]
mod merging;
#[cfg(test)]
mod worker_tests;
#[cfg(test)]
mod working;
