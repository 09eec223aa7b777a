use flit_model::{Call, Reply};
use flit_pv::{Hand, PExchange, PLoad, PrivateStore, VLoad};
use flit_rows::TakeRow;
use std::marker::Model;

/// Where a call is. From the load of the head on, `head` is the raw word that was loaded.
#[derive(Drop)]
pub enum Phase {
    /// The head is being loaded.
    Head(PLoad),
    /// The key of the row that the head links.
    Key { head: u64, load: VLoad },
    /// The value of that row.
    Value(VLoad),
    /// A row for an insert.
    Row { head: u64, take: TakeRow },
    /// The row's key and its link to no row.
    Words { head: u64 },
    /// The row's value.
    RowValue { head: u64 },
    /// The head: to the link to the row, or to none.
    Link(PExchange),
    /// What is queued is being written back, and then the call has its reply.
    Ends,
    /// Nothing.
    Rests,
}

/// A call under way. The hand stays in its place from the call's start to its end.
#[derive(Drop)]
pub struct SampleOp {
    pub call: Call,
    /// The reply that stands once no event comes any more.
    pub reply: Reply,
    pub hand: Hand,
    /// The stores of the row's words, while the phase is one of those. They are the largest machine, and stand beside the
    /// phase so that a change of phase is small.
    pub store: PrivateStore,
    pub at: Phase,
}

impl Model for SampleOp {
    ghost use Rattle.flit_one_key.specs.Operations.{HeldOp};
    ghost use Rattle.flit_one_key.specs.Phases.{at_of};

    ghost Value = { HeldOp };

    ghost view = { λ op. record { call = op.call; reply = op.reply; at = at_of op.hand op.store op.at } };
}
