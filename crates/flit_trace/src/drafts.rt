use crate::heads::{Head, Place};
use crate::stages::Stage;
use flit_words::{GREATEST_VERSION, Kind, Layout};

/// What the lines so far have said. What wasn't said yet has its default, or its least number.
#[derive(Clone, Copy, Debug)]
pub(crate) struct Draft {
    pub stage: Stage,
    /// Without slots.
    pub layout: Layout,
    pub place: Place,
    pub has_start: bool,
    /// Whether the start block is of version 2.
    pub start_values: bool,
    /// In the start block the words below this one have had their turn.
    pub told: u32,
    /// The call and evict lines, at most `MOST_CALLS`.
    pub lines: u32,
    /// The call lines among them.
    pub calls: u32,
    /// Each worker's stop point, worker 1 first.
    pub stops: [Option<u64>; 64],
}

impl Draft {
    ghost use Rattle.std.specs.Prelude.{◌≡◌, ◌≤◌, is_some};
    ghost use Rattle.flit_words.specs.Layouts.{Accepted};
    ghost use Rattle.flit_words.specs.declared.limits.TheConstants.{MOST_WORKERS};
    ghost use Rattle.flit_trace.specs.Drafts.{blank, start_layout, stop_of, IsSound};
    ghost use Rattle.flit_trace.specs.Contents.{head_of};

    /// What no line has said.
    pub fn blank() -> Draft
        ensures is { result ≡ blank }
        ensures sound { IsSound result }
    {
        Draft {
            stage: Stage::AtVersion,
            layout: Layout {
                kind: Kind::List,
                buckets: 1,
                rows: 1,
                slots: 0,
                workers: 1,
                limit: GREATEST_VERSION,
                values: false,
            },
            place: Place::Adjacent,
            has_start: false,
            start_values: false,
            told: 0,
            lines: 0,
            calls: 0,
            stops: [None; 64],
        }
    }

    /// The layout of the words of the start block.
    pub fn start_layout(&self) -> Layout
        ensures { result ≡ start_layout self.now }
    {
        Layout {
            values: self.start_values,
            ..self.layout
        }
    }

    /// What the trace says before its body.
    pub fn head(&self) -> Head
        requires { Accepted self.now.layout }
        ensures { result ≡ head_of self.now }
    {
        let words = self.layout.words();
        let slots = match self.place {
            Place::Adjacent => words,
            Place::Hashed(slots) => slots,
            Place::Packed => 0,
            Place::Lines => (words + 7) / 8,
        };
        Head {
            layout: Layout {
                slots,
                ..self.layout
            },
            place: self.place,
        }
    }

    /// Whether a stop point was given to this worker, from 1.
    pub fn has_stop(&self, worker: u64) -> bool
        requires { (1 ≤ worker) × (worker ≤ MOST_WORKERS) }
        ensures { result ≡ is_some (stop_of self.now.stops worker) }
    {
        self.stops[worker as usize - 1].is_some()
    }
}
