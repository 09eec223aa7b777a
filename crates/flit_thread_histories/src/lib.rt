//! What is true of every run of a durable structure on threads: all that is told at its end, in one record.
#![tactic(auto)]

mod laws;

pub use laws::{
    ends_in_order, one_worker_queues_nothing, promises_tell_runs, threads_keep_promises,
};
