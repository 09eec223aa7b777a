ghost use Rattle.std.specs.Prelude.{◌≡◌, ◌≤◌, ◌∷◌, ◌++◌, length, take, drop, insert, IfOk, OnOk};
ghost use Rattle.flit_model.specs.Histories.{stands_before, put_in_order, reads_at, history_of};

use flit_model::{Entry, Placed};
use flit_words::NoMemory;
use std::alloc::Global;

/// Whether a read stands before another one of its position.
fn is_before(read: &Entry, other: &Entry) -> bool
    ensures { result ≡ stands_before read.now other.now }
{
    read.worker < other.worker || read.worker == other.worker && read.number <= other.number
}

/// Where a read goes among the entries from `start` on.
fn place_of(entries: &[Entry], start: usize, read: &Entry) -> usize
    requires { start ≤ length entries.now }
    ensures within { result ≤ length entries.now }
    ensures place { insert entries.now result read.now ≡ take start entries.now
        ++ put_in_order read.now (drop start entries.now) }
{
    for place in start..entries.len() {
        if is_before(read, &entries[place]) {
            return place;
        }
    }
    entries.len()
}

/// Adds the reads of a position in their order.
fn push_reads_at(
    position: usize,
    reads: &[Placed],
    history: &mut Vec<Entry>,
) -> Result<(), NoMemory>
    ensures { OnOk result (history.new.items ≡ history.old.items ++ reads_at position reads.now) }
{
    let start = history.len();
    let mut left = reads.len();
    while left > 0 {
        left -= 1;
        let read = reads[left];
        if u64::from(read.position) == position as u64 {
            let place = place_of(history, start, &read.entry);
            history.insert(place, read.entry)?;
        }
    }
    Ok(())
}

/// The one list of the updates and of the reads, each of which stands behind as many updates as its position says.
/// Reads of one position stand by worker and then by number; a read whose position is above the number of updates is
/// left out. The one error is that no memory was left.
pub fn history(alloc: Global, updates: &[Entry], reads: &[Placed]) -> Result<Vec<Entry>, NoMemory>
    ensures { IfOk result (λ h. h.items ≡ history_of updates.now reads.now) }
{
    let mut history = Vec::new(alloc);
    for (position, update) in updates.iter().enumerate() {
        push_reads_at(position, reads, &mut history)?;
        history.push(*update)?;
    }
    push_reads_at(updates.len(), reads, &mut history)?;
    Ok(history)
}
