use flit_model::{Call, Entry, Event, Outcome, Tally};

/// A call of a worker, and what became of it.
#[derive(Clone, Copy, Debug, PartialEq, Eq)]
pub struct Line {
    /// From 1.
    pub worker: u32,
    pub call: Call,
    pub outcome: Outcome,
}

/// An event of a worker, and what it was answered.
#[derive(Clone, Copy, Debug, PartialEq, Eq)]
pub struct Shown {
    /// From 1.
    pub worker: u32,
    pub event: Event,
    /// A raw word or a count, as the event answers it; a store's is not shown.
    pub answer: u64,
}

/// What a report tells.
#[derive(Debug, Drop)]
pub struct Report {
    /// Whether only the counts are told.
    pub summary: bool,
    /// 2 where the values are told, and else any other number.
    pub version: u32,
    /// In the order in which they happened.
    pub events: Vec<Shown>,
    /// The calls, in the order in which they are told.
    pub lines: Vec<Line>,
    pub history: Vec<Entry>,
    /// The counts of worker 1, of worker 2 and so on.
    pub tallies: Vec<Tally>,
    pub keys: Vec<u32>,
    pub values: Vec<u32>,
    /// How many rows are free.
    pub free: u32,
}
