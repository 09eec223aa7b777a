ghost use Rattle.std.specs.Prelude.{◌⊎◌, ◌↔◌, ◌≤◌, ◌≡◌, IsTrue, length};
ghost use Rattle.flit_structure.specs.Meanings.{key_of as the_key_of};

use flit_model::{Call, Entry, Outcome, Work};

/// An update whose value is ahead at a word.
#[derive(Clone, Copy, Debug, PartialEq, Eq)]
pub struct Waiting {
    pub word: u32,
    pub entry: Entry,
}

/// A worker with its work, and how far it has come.
#[derive(Drop)]
pub struct Player<W> {
    pub worker: W,
    pub work: Work,
    /// How many events its stop leaves it.
    pub left: Option<u64>,
    /// How many of its items are over.
    pub over: usize,
    /// What became of each item; None for an Evict.
    pub outcomes: Vec<Option<Outcome>>,
    /// The update of its call, where its value is ahead.
    pub waiting: Option<Waiting>,
    /// What the map had at the key of its call when that made its first event.
    pub noted: Option<u32>,
}

impl<W> Player<W> {
    /// Whether it has no item left, or has made as many events as its stop says.
    pub(crate) fn is_out(&self) -> bool
        ensures { IsTrue result ↔ ((length self.now.work.items.items ≤ self.now.over)
            ⊎ (self.now.left ≡ Some 0)) }
    {
        self.over >= self.work.items.len() || self.left == Some(0)
    }
}

/// The key of a call.
pub(crate) fn key_of(call: Call) -> u32
    ensures { result ≡ the_key_of call }
{
    match call {
        Call::Insert(key, _) | Call::Remove(key) | Call::Contains(key) | Call::Get(key) => key,
    }
}
