ghost use Rattle.std.specs.Prelude.{◌≡◌, ℕ, ◌≤◌, ◌++◌, List, None, IfOk, OnOk, length, map, flat_map};
ghost use Rattle.std.specs.List.{AllByRecursion, Contains};
ghost use Rattle.std.specs.FinMap as map_of;
ghost use Rattle.std.specs.List.Sorted.{IsStrictlyIncreasing};
ghost use Rattle.flit_words.specs.declared.limits.TheConstants.{MOST_WORKERS, MOST_CALLS};
ghost use Rattle.flit_structure.specs.Meanings.{key_of as the_key_of};
ghost use Rattle.flit_sched.specs.Openings.{content_of, first_outcome, item_count};
ghost use Rattle.flit_sched.specs.Kept.{AllRaw, IsKeyed};
ghost use Rattle.flit_sched.specs.Seats.{AreHiredFrom};

use crate::players::{Player, key_of};
use crate::seats::{At, Seat};
use flit_model::{Item, Outcome, Work};
use flit_words::NoMemory;
use std::alloc::Global;

/// Words have 64 bits.
pub(crate) fn are_raw(words: &[u64])
    ensures { AllRaw words.now }
{
    let _ = words;
}

/// The outcomes of items that nobody has begun.
fn first_outcomes(alloc: Global, items: &[Item]) -> Result<Vec<Option<Outcome>>, NoMemory>
    ensures { IfOk result (λ os. os.items ≡ map first_outcome items.now) }
{
    let mut outcomes = Vec::with_capacity(alloc, items.len())?;
    for item in items {
        outcomes.push(match item {
            Item::Call(_) => Some(Outcome::Stopped),
            Item::Evict(_) => None,
        })?;
    }
    Ok(outcomes)
}

/// A worker that has done nothing, for each work.
pub(crate) fn hire<O: Drop>(
    alloc: Global,
    works: Vec<Work>,
) -> Result<Vec<Player<Seat<O>>>, NoMemory>
    requires { length works.items ≤ MOST_WORKERS }
    ensures { IfOk result (λ ps. AreHiredFrom 1 works.items ps.items) }
{
    let mut players = Vec::with_capacity(alloc, works.len())?;
    let mut name = 1;
    for work in works {
        players.push(Player {
            worker: Seat {
                name,
                number: 0,
                at: At::New,
            },
            left: work.stop,
            over: 0,
            outcomes: first_outcomes(alloc, &work.items)?,
            waiting: None,
            noted: None,
            work,
        })?;
        name += 1;
    }
    Ok(players)
}

/// The number of items of all works.
pub(crate) fn count_items(works: &[Work]) -> usize
    requires { item_count works.now ≤ MOST_CALLS }
    ensures { result ≡ item_count works.now }
{
    let mut count = 0;
    for work in works {
        count += work.items.len();
    }
    count
}

/// Puts the keys of the calls among some items behind others.
fn push_keys(keys: &mut Vec<u32>, items: &[Item]) -> Result<(), NoMemory>
    ensures { OnOk result ((more : List ℕ) × (keys.new.items ≡ keys.old.items ++ more)
        × AllByRecursion (IsKeyed more) items.now) }
{
    for item in items {
        if let Item::Call(call) = item {
            keys.push(key_of(*call))?;
        }
    }
    Ok(())
}

/// The keys of all calls.
fn all_keys(alloc: Global, works: &[Work]) -> Result<Vec<u32>, NoMemory>
    ensures { IfOk result (λ ks. AllByRecursion
        (λ w. AllByRecursion (IsKeyed ks.items) w.items.items) works.now) }
{
    let mut keys = Vec::new(alloc);
    for work in works {
        push_keys(&mut keys, &work.items)?;
    }
    Ok(keys)
}

/// The keys of all calls, in order, each once.
pub(crate) fn keys_of(alloc: Global, works: &[Work]) -> Result<Vec<u32>, NoMemory>
    ensures rising { IfOk result (λ ks. IsStrictlyIncreasing ks.items) }
    ensures has { IfOk result (λ ks. AllByRecursion
        (λ w. AllByRecursion (IsKeyed ks.items) w.items.items) works.now) }
{
    let mut keys = all_keys(alloc, works)?;
    keys.sort()?;
    keys.dedup();
    Ok(keys)
}

/// What the map at the start has at each key, given its own keys in order and their values.
pub(crate) fn first_values(
    alloc: Global,
    first_keys: &[u32],
    first_values: &[u32],
    keys: &[u32],
) -> Result<Vec<Option<u32>>, NoMemory>
    requires rising { IsStrictlyIncreasing first_keys.now }
    requires same { length first_values.now ≡ length first_keys.now }
    ensures { IfOk result (λ vs. map (λ k. map_of.get (content_of first_keys.now first_values.now)
        k) keys.now ≡ vs.items) }
{
    let mut values = Vec::with_capacity(alloc, keys.len())?;
    for key in keys {
        values.push(match first_keys.binary_search(key) {
            Ok(at) => Some(first_values[at]),
            Err(_) => None,
        })?;
    }
    Ok(values)
}
