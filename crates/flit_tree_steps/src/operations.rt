use flit_model::{Call, Reply};
use flit_pv::{Hand, PExchange, PLoad, PrivateStore, VLoad};
use flit_rows::TakeRow;
use std::marker::Model;

/// The word of an edge as a seek loaded it, or as its own exchange wrote it.
#[derive(Clone, Copy, Debug, PartialEq, Eq)]
pub struct EdgeWord {
    pub word: u32,
    pub raw: u64,
}

/// The edges that a seek stands at.
#[derive(Clone, Copy, Debug, PartialEq, Eq)]
pub struct Path {
    /// The last edge above `edge` that isn't frozen: a clean-up swings it.
    pub ancestor: EdgeWord,
    /// The edge that leads to the row that is looked at.
    pub edge: EdgeWord,
    /// The key of that row, once it is loaded.
    pub key: u32,
    /// The edge whose row takes the place of what a clean-up cuts off: the other edge of the row of `edge`, or `edge`
    /// itself where that is frozen and not flagged.
    pub sibling: EdgeWord,
}

/// For whom a clean-up is made.
#[derive(Clone, Copy, Debug, PartialEq, Eq)]
pub enum CleanUp {
    /// For the call's own removal: whatever its end, the call ends behind it.
    Own,
    /// For another's removal, which the seek came upon: the seek begins again behind it.
    Help,
}

/// Where a call is.
#[derive(Drop)]
pub enum Phase {
    /// The edge that the tree hangs from is being loaded.
    Root(PLoad),
    /// The key of the row that is looked at.
    Key(PLoad),
    /// The edge of that row on the side of the call's key.
    Edge(PLoad),
    /// Two rows for an insert.
    Rows(TakeRow),
    /// The new leaf's key and edges.
    LeafWords,
    /// The new leaf's value.
    LeafValue,
    /// The new inner row's key and edges.
    InnerWords,
    /// The link to the inner row.
    Link(PExchange),
    /// The flag on the edge to the leaf that a remove has found.
    Flag(PExchange),
    /// The other edge of the row from which a flagged edge leads.
    Sibling {
        clean_up: CleanUp,
        load: PLoad,
    },
    /// That edge is being frozen.
    Freeze {
        clean_up: CleanUp,
        freeze: PExchange,
    },
    /// The ancestor's edge is being swung to the row that the sibling leads to.
    Swing {
        clean_up: CleanUp,
        swing: PExchange,
    },
    /// The value of the leaf that was found.
    Value(VLoad),
    /// What is queued is being written back, and then the call has its reply.
    Ends,
    /// Nothing.
    Rests,
}

/// A call under way. The hand stays in its place from the call's start to its end.
#[derive(Drop)]
pub struct TreeOp {
    pub call: Call,
    /// The reply that stands once no event comes any more.
    pub reply: Reply,
    pub hand: Hand,
    pub path: Path,
    /// The stores of a new row's words, while the phase is one of those.
    pub store: PrivateStore,
    pub at: Phase,
}

impl Model for TreeOp {
    ghost use Rattle.flit_tree_steps.specs.Operations.{HeldOp};
    ghost use Rattle.flit_tree_steps.specs.Phases.{at_of};

    ghost Value = { HeldOp };

    ghost view = { λ op. record { call = op.call; reply = op.reply; path = op.path; at = at_of op.hand op.store op.at } };
}
