use atomic_table::TableRule;
use flit_model::{Call, Entry, Placed, Recovered, Tally};
use flit_structure::{Structure, Worker};
use std::collections::LinkedList;
use std::marker::PhantomData;
use std::snapshot::Snapshot;

/// A line of the log: a word whose new value ahead has an entry from now on, or a word alone, whose shadow has risen.
#[derive(Clone, Copy)]
pub struct Logged {
    pub word: u32,
    pub entry: Option<Entry>,
}

/// An item that was made: a call that has its reply, or an evict.
#[derive(Clone, Copy)]
pub enum Made {
    Answered(Entry),
    Evicted { name: u32, word: u32 },
}

/// A structure, and at what it was opened.
#[derive(Drop)]
pub struct Origin<S> {
    pub structure: Snapshot<S>,
    pub start: Snapshot<Recovered>,
}

/// What the worker of a name is at. Of a call under way, the tally that its hand had at the start, and the number of its
/// events since its last search began.
pub struct Post<O> {
    pub worker: Worker<O>,
    pub start: Tally,
    pub tried: u64,
}

/// What a pass knows. No value of it is ever made.
pub struct View<S, O> {
    /// None in the view of a pass that was joined into another.
    pub origin: Option<Origin<S>>,
    /// The names that the pass owns: the first, and how many.
    pub name: u32,
    pub names: u32,
    /// What the worker of the first name is at. The others of these names have made nothing.
    pub post: Post<O>,
    /// The workers of names that have ended here.
    pub gone: LinkedList<Post<O>>,
    /// As much of the log as the pass knows.
    pub log: LinkedList<Logged>,
    /// The shorter log of the last join.
    pub note: LinkedList<Logged>,
    /// The items made, in order.
    pub mine: LinkedList<Made>,
    /// The completed reads among them, with their positions.
    pub placed: LinkedList<Placed>,
    /// The name of each event made.
    pub events: LinkedList<u32>,
}

/// What a step begins.
#[derive(Clone, Copy)]
pub enum Start {
    /// Nothing: it goes on.
    Go,
    /// A call.
    Begin(Call),
    /// An evict of a word.
    Sweep(u32),
}

/// The rule of the table.
pub struct Rule<S> {
    of: PhantomData<S>,
}

impl<S: Structure> TableRule<u64, View<S, S::Op>, Origin<S>> for Rule<S> {
    ghost use Rattle.flit_table.specs.Rule.{IsRuled, first_view};

    ghost holds = { λ o. IsRuled (S.meaning o.structure.value) o };

    ghost first = { λ o. first_view (S.meaning o.structure.value) o };
}
