ghost use Rattle.std.specs.Prelude.{◌≡◌};
ghost use Rattle.flit_sched.specs.Seats.{at_rest};

use flit_model::Call;
use flit_pv::Evict;

/// A call that has no reply yet.
#[derive(Clone, Copy, Debug, PartialEq, Eq)]
pub struct UnderWay {
    pub call: Call,
    /// How many updates were settled at the call's first event; None before it.
    pub begun: Option<u64>,
}

/// What a worker is at. What it is done with stays in its place until its next item begins, and so does its hand.
#[derive(Drop)]
pub enum At<O> {
    /// At nothing so far, with its first hand.
    New,
    /// At a call, or done with one.
    Call { op: O, under_way: Option<UnderWay> },
    /// At an Evict, or done with one.
    Evict { evict: Evict, over: bool },
}

/// A worker: its name, how many calls it has begun, and what it is at.
#[derive(Drop)]
pub struct Seat<O> {
    /// From 1.
    pub name: u32,
    pub number: u32,
    pub at: At<O>,
}

impl<O> Seat<O> {
    /// Whether the worker is at no item.
    pub(crate) fn rests(&self) -> bool
        ensures { result ≡ at_rest self.now.at }
    {
        match &self.at {
            At::New => true,
            At::Call { under_way, .. } => under_way.is_none(),
            At::Evict { over, .. } => *over,
        }
    }
}
