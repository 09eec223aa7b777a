use crate::views::{Start, View};
use atomic_table::Seat;
use flit_model::{Reply, Tally};
use flit_pv::Hand;
use flit_structure::Structure;

/// How a call that may make so many events came out.
#[derive(Clone, Copy, Debug, PartialEq, Eq)]
pub enum Within {
    /// It has its reply, after so many events.
    Done { reply: Reply, made: u64 },
    /// It has made them all and has no reply.
    Stopped,
}

/// What a pass has between its calls.
#[derive(Drop)]
pub enum Rest<O> {
    /// Its hand.
    Hand(Hand),
    /// The operation that ended last, with the hand in it; the next call begins in its place.
    Ended(O),
    /// Nothing, since the pass is stopped: its tally, and what it waits to begin.
    Stopped { tally: Tally, start: Start },
}

/// What a pass has: its seat at the table, and of its view what the code needs.
#[derive(Drop)]
pub struct Holder<S, O> {
    pub(crate) seat: Seat<u64, View<S, O>>,
    pub(crate) name: u32,
    pub(crate) names: u32,
    pub(crate) calls: u32,
    pub(crate) rest: Rest<O>,
}

/// The right to make calls on a running structure under a name.
#[derive(Drop)]
pub struct Pass<S: Structure> {
    pub(crate) held: Holder<S, S::Op>,
}

impl<S: Structure> Pass<S> {
    ghost use Rattle.std.specs.Prelude.{◌≡◌};
    ghost use Rattle.flit_table.specs.Passes.{own_name, own_names, own_calls, has_stopped};

    /// The pass's name.
    pub fn name(&self) -> u32
        ensures { result ≡ own_name self.now }
    {
        self.held.name
    }

    /// How many names it owns.
    pub fn names(&self) -> u32
        ensures { result ≡ own_names self.now }
    {
        self.held.names
    }

    /// How many calls were begun through this pass alone.
    pub fn calls(&self) -> u32
        ensures { result ≡ own_calls self.now }
    {
        self.held.calls
    }

    /// Whether it is stopped.
    pub fn is_stopped(&self) -> bool
        ensures { result ≡ has_stopped self.now }
    {
        match &self.held.rest {
            Rest::Hand(_) => false,
            Rest::Ended(_) => false,
            Rest::Stopped { .. } => true,
        }
    }
}
