use flit_model::{Call, Reply};
use flit_pv::{Confirm, Hand, PExchange, PrivateStore, VLoad};
use flit_rows::TakeRow;
use std::marker::Model;

/// A link word as a search loaded it, or as its own exchange wrote it.
#[derive(Clone, Copy, Debug, PartialEq, Eq)]
pub struct LinkWord {
    pub word: u32,
    pub raw: u64,
    /// It was confirmed since it was loaded, or written by this search.
    pub confirmed: bool,
}

/// The link words that a search stands at.
#[derive(Clone, Copy, Debug, PartialEq, Eq)]
pub struct Path {
    /// The word that leads to the row of `pred`; None where `pred` is the head.
    pub back: Option<LinkWord>,
    /// The word that leads to the row that is looked at.
    pub pred: LinkWord,
    /// The link word of that row, once it is loaded.
    pub next: LinkWord,
}

/// What a search goes on to, once the words that it stands at are confirmed.
#[derive(Clone, Copy, Debug, PartialEq, Eq)]
pub enum Goal {
    /// To unlink the row that is looked at, which is marked.
    Help,
    /// To its end: that row has the key.
    Found,
    /// To its end: no row has the key.
    Absent,
}

/// Which of the words is being confirmed.
#[derive(Clone, Copy, Debug, PartialEq, Eq)]
pub enum Which {
    Back,
    Pred,
    Next,
}

/// Where a call is.
#[derive(Drop)]
pub enum Phase {
    /// The head of the key's bucket is being loaded.
    Head(VLoad),
    /// The link word of the row that is looked at.
    Next(VLoad),
    /// Its key.
    Key(VLoad),
    /// A word of the path is being confirmed.
    Confirming {
        goal: Goal,
        which: Which,
        confirm: Confirm,
    },
    /// A marked row is being unlinked.
    Help(PExchange),
    /// A row for an insert.
    Row(TakeRow),
    /// The row's key and its link.
    Words,
    /// The row's value.
    RowValue,
    /// The link to the insert's row.
    Link(PExchange),
    /// The mark of the row that a remove has found.
    Mark(PExchange),
    /// The row that the call has marked is being unlinked.
    Tidy(PExchange),
    /// The value of the row that was found.
    Value(VLoad),
    /// What is queued is being written back, and then the call has its reply.
    Ends,
    /// Nothing.
    Rests,
}

/// A call under way. The hand stays in its place from the call's start to its end.
#[derive(Drop)]
pub struct ListOp {
    pub call: Call,
    /// The reply that stands once no event comes any more.
    pub reply: Reply,
    pub hand: Hand,
    pub path: Path,
    /// The stores of the row's words, while the phase is one of those.
    pub store: PrivateStore,
    pub at: Phase,
}

impl Model for ListOp {
    ghost use Rattle.flit_list_steps.specs.Operations.{HeldOp};
    ghost use Rattle.flit_list_steps.specs.Phases.{at_of};

    ghost Value = { HeldOp };

    ghost view = { λ op. record { call = op.call; reply = op.reply; path = op.path; at = at_of op.hand op.store op.at } };
}
