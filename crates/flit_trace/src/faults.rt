ghost use Rattle.std.specs.Prelude.{◌≡◌};
ghost use Rattle.flit_trace.specs.declared.faults.TraceError.TheVariants.{NoMemory as No_memory};

use flit_words::NoMemory;
use std::alloc::{AllocError, AllocFailed};

/// What there is too much of in a trace that is over a limit.
#[derive(Clone, Copy, Debug, PartialEq, Eq)]
pub enum Bound {
    Bytes,
    Rows,
    Workers,
    Calls,
    Buckets,
    Slots,
    Versions,
    /// Event lines, of a printed run alone: no trace has this fault.
    Events,
}

/// Why a trace was not read. Lines are counted from 1.
#[derive(Clone, Copy, Debug, PartialEq, Eq)]
pub enum TraceError {
    /// The first line that can't stand where it stands.
    BadLine { line: u32 },
    /// The first line that could stand there but for a number past this limit; 0 for the limit on bytes.
    Limit { line: u32, limit: Bound },
    /// All lines are right and `end` is missing; the line is their number plus one.
    NoEnd { line: u32 },
    /// There was no memory for what is read.
    NoMemory,
}

impl From<NoMemory> for TraceError {
    ghost from_gives = { λ _ e. e ≡ No_memory };

    fn from(_error: NoMemory) -> Self {
        TraceError::NoMemory
    }
}

impl From<AllocError> for TraceError {
    ghost from_gives = { λ _ e. e ≡ No_memory };

    fn from(_error: AllocError) -> Self {
        TraceError::NoMemory
    }
}

impl<T: Drop> From<AllocFailed<T>> for TraceError {
    ghost from_gives = { λ _ e. e ≡ No_memory };

    fn from(_failed: AllocFailed<T>) -> Self {
        TraceError::NoMemory
    }
}
