use flit_model::{Call, Item};

/// What a call or evict line asks for.
#[derive(Clone, Copy, Debug, PartialEq, Eq)]
pub(crate) enum Action {
    Insert,
    Remove,
    Contains,
    Get,
    Evict,
}

/// A call or evict line in 16 bytes.
#[derive(Clone, Copy, Debug)]
pub(crate) struct Entry {
    /// The line's number.
    pub line: u32,
    pub action: Action,
    /// The key, or the word of a write-back.
    pub subject: u32,
    pub value: u32,
}

impl Entry {
    ghost use Rattle.std.specs.Prelude.{◌≡◌, ◌<◌, ◌^◌};
    ghost use Rattle.flit_trace.specs.Entries.{item_of};

    /// The entry of a line with these numbers.
    pub fn of(line: u32, action: Action, subject: u64, value: u64) -> Entry
        requires subject_below { subject < 2 ^ 32 }
        requires value_below { value < 2 ^ 32 }
        ensures { result
            ≡ record { line = line; action = action; subject = subject; value = value } }
    {
        Entry {
            line,
            action,
            subject: subject as u32,
            value: value as u32,
        }
    }

    /// The item of the line.
    pub fn item(&self) -> Item
        ensures { result ≡ item_of self.now }
    {
        match self.action {
            Action::Insert => Item::Call(Call::Insert(self.subject, self.value)),
            Action::Remove => Item::Call(Call::Remove(self.subject)),
            Action::Contains => Item::Call(Call::Contains(self.subject)),
            Action::Get => Item::Call(Call::Get(self.subject)),
            Action::Evict => Item::Evict(self.subject),
        }
    }
}
