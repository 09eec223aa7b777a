use crate::entries::Entry;
use std::marker::Model;

/// A worker's call and evict lines in order, each as its line number and its item, lent from a trace. Contracts see it
/// as the list of those that are left.
#[derive(Drop)]
pub struct Script<'t> {
    entries: &'t [Entry],
}

impl<'t> Model for Script<'t> {
    ghost use Rattle.std.specs.Prelude.{ℕ, List, map};
    ghost use Rattle.flit_model.specs.declared.calls.Item.{Item};
    ghost use Rattle.flit_trace.specs.Entries.{numbered};

    ghost Value = { List (ℕ × Item) };

    ghost view = { λ s. map numbered s.entries.now };
}

impl<'t> Script<'t> {
    ghost use Rattle.std.specs.Prelude.{◌≡◌, map};
    ghost use Rattle.flit_trace.specs.Entries.{numbered};

    /// The script of these lines.
    pub(crate) fn of(entries: &'t [Entry]) -> Script<'t>
        ensures { result ≡ map numbered entries.now }
    {
        Script { entries }
    }
}

impl<'t> Iterator for Script<'t> {
    ghost use Rattle.std.specs.Iterator.{YieldsFirst, item_count};

    type Item = (u32, flit_model::Item);

    ghost next_gives = { YieldsFirst (λ left. left) };

    ghost remaining = { item_count (λ left. left) };

    fn next(&mut self) -> Option<(u32, flit_model::Item)> {
        let (first, others) = self.entries.split_first()?;
        self.entries = others;
        Some((first.line, first.item()))
    }
}

/// The turn lines in order, each as its worker and its number of events, lent from a trace. Contracts see it as the
/// list of those that are left.
#[derive(Drop)]
pub struct Turns<'t> {
    turns: &'t [(u32, u64)],
}

impl<'t> Model for Turns<'t> {
    ghost use Rattle.std.specs.Prelude.{ℕ, List};

    ghost Value = { List (ℕ × ℕ) };

    ghost view = { λ t. t.turns.now };
}

impl<'t> Turns<'t> {
    ghost use Rattle.std.specs.Prelude.{◌≡◌};

    /// These turns.
    pub(crate) fn of(turns: &'t [(u32, u64)]) -> Turns<'t>
        ensures { result ≡ turns.now }
    {
        Turns { turns }
    }
}

impl<'t> Iterator for Turns<'t> {
    ghost use Rattle.std.specs.Iterator.{YieldsFirst, item_count};

    type Item = (u32, u64);

    ghost next_gives = { YieldsFirst (λ left. left) };

    ghost remaining = { item_count (λ left. left) };

    fn next(&mut self) -> Option<(u32, u64)> {
        let (first, others) = self.turns.split_first()?;
        self.turns = others;
        Some(*first)
    }
}
