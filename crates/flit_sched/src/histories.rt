ghost use Rattle.std.specs.Prelude.{◌≡◌, ℕ, ◌≤◌, ◌++◌, ◌==◌, List, drop, length, IfOk, OnOk};
ghost use Rattle.std.specs.Ordering.{nat_cmp};
ghost use Rattle.std.specs.List.{list_any};
ghost use Rattle.std.specs.BTreeMap.{values};
ghost use Rattle.std.specs.FinMap as map_of;
ghost use Rattle.flit_model.specs.Histories.{history_of};
ghost use Rattle.flit_model.specs.Settling.{taken_updates};
ghost use Rattle.flit_model.specs.declared.calls.Entry.{Entry as An_entry};
ghost use Rattle.flit_sched.specs.Histories.{placed_in_order, front_at, behind_front};
ghost use Rattle.flit_sched.specs.Kept.{waiting_of, progress_of};
ghost use Rattle.flit_sched.specs.Views.{picks_of};

use crate::players::Player;
use flit_model::{Ahead, Entry, Placed};
use flit_words::NoMemory;
use std::alloc::Global;
use std::collections::BTreeMap;

/// The reads by position, worker and number.
fn sorted_reads(alloc: Global, reads: &[Placed]) -> Result<Vec<Placed>, NoMemory>
    ensures { IfOk result (λ sorted. sorted.items ≡ placed_in_order reads.now) }
{
    let mut sorted = Vec::from_slice(alloc, reads)?;
    sorted.sort_by_key(|read| (read.position, read.entry.worker, read.entry.number))?;
    Ok(sorted)
}

/// Adds the reads of a position that stand from a place on, and answers the place behind them.
fn push_reads_at(
    position: usize,
    reads: &[Placed],
    start: usize,
    history: &mut Vec<Entry>,
) -> Result<usize, NoMemory>
    requires { start ≤ length reads.now }
    ensures entries { OnOk result (history.new.items ≡ history.old.items ++ front_at position
        (drop start reads.now)) }
    ensures within { IfOk result (λ next. next ≤ length reads.now) }
    ensures behind { IfOk result (λ next. drop next reads.now ≡ behind_front position
        (drop start reads.now)) }
{
    let mut next = start;
    while next < reads.len() && u64::from(reads[next].position) == position as u64 {
        history.push(reads[next].entry)?;
        next += 1;
    }
    Ok(next)
}

/// The one list of the settled updates and of the reads at their positions.
fn history_of_settled(
    alloc: Global,
    settled: &[Entry],
    reads: &[Placed],
) -> Result<Vec<Entry>, NoMemory>
    ensures { IfOk result (λ h. h.items ≡ history_of settled.now reads.now) }
{
    let sorted = sorted_reads(alloc, reads)?;
    let mut history = Vec::with_capacity(alloc, settled.len() + reads.len())?;
    let mut next = 0;
    for (position, update) in settled.iter().enumerate() {
        next = push_reads_at(position, &sorted, next, &mut history)?;
        history.push(*update)?;
    }
    push_reads_at(settled.len(), &sorted, next, &mut history)?;
    Ok(history)
}

/// The updates that wait in values ahead, by word.
fn waiting_updates<W>(
    alloc: Global,
    players: &[Player<W>],
) -> Result<BTreeMap<u32, Entry>, NoMemory>
    ensures { IfOk result (λ m. m.entries ≡ map_of.entries
        (map_of.from_entries {R = nat_cmp} (waiting_of players.now))) }
{
    let mut updates = BTreeMap::new(alloc);
    let mut left = players.len();
    while left > 0 {
        left -= 1;
        if let Some(waiting) = players[left].waiting {
            updates.insert(waiting.word, waiting.entry)?;
        }
    }
    Ok(updates)
}

/// Those of the updates that wait at one of the words.
fn waiting_at_words(
    alloc: Global,
    updates: &BTreeMap<u32, Entry>,
    words: &[u32],
) -> Result<BTreeMap<u32, Entry>, NoMemory>
    ensures { IfOk result (λ taken. (m : map_of.FinMap nat_cmp An_entry) →
        updates.now.entries ≡ map_of.entries m → taken.entries ≡ map_of.entries
        (map_of.retain_keys m (λ word. list_any (λ w. w == word) words.now))) }
{
    let mut taken = BTreeMap::new(alloc);
    for word in words {
        if let Some(entry) = updates.get(word) {
            taken.insert(*word, *entry)?;
        }
    }
    Ok(taken)
}

/// The updates of the values ahead that are taken, by word.
fn updates_taken<W>(
    alloc: Global,
    players: &[Player<W>],
    ahead: &Ahead,
) -> Result<BTreeMap<u32, Entry>, NoMemory>
    ensures { IfOk result (λ taken. (settled : List An_entry) →
        values taken ≡ taken_updates (progress_of settled players.now) (picks_of ahead.now)) }
{
    let updates = waiting_updates(alloc, players)?;
    match ahead {
        Ahead::None => Ok(BTreeMap::new(alloc)),
        Ahead::All => Ok(updates),
        Ahead::Words(words) => waiting_at_words(alloc, &updates, words),
    }
}

/// The updates by word.
fn in_order(alloc: Global, updates: BTreeMap<u32, Entry>) -> Result<Vec<Entry>, NoMemory>
    ensures { IfOk result (λ list. list.items ≡ values updates) }
{
    Ok(updates.into_values().collect(alloc)?)
}

/// The settled updates with the reads, and behind them the updates of the values ahead that are taken.
pub(crate) fn history_ahead<W>(
    alloc: Global,
    settled: &[Entry],
    reads: &[Placed],
    players: &[Player<W>],
    ahead: &Ahead,
) -> Result<Vec<Entry>, NoMemory>
    ensures { IfOk result (λ h. h.items ≡ history_of settled.now reads.now ++ taken_updates
        (progress_of settled.now players.now) (picks_of ahead.now)) }
{
    let mut history = history_of_settled(alloc, settled, reads)?;
    let taken = in_order(alloc, updates_taken(alloc, players, ahead)?)?;
    history.extend_from_slice(&taken)?;
    Ok(history)
}
