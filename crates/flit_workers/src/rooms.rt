ghost use Rattle.std.specs.Prelude.{◌≡◌, ℕ, ◌+◌, ◌<◌, ◌≤◌, List, [], ◌∷◌, length, map, replicate, IfOk};
ghost use Rattle.std.specs.List.{AllByRecursion};
ghost use Rattle.flit_model.specs.declared.calls.Outcome.TheVariants.{Stopped};
ghost use Rattle.flit_workers.specs.Works.{calls_in};
ghost use Rattle.flit_workers.specs.Ends.{HasRoomFor, IsRoom};

use flit_model::{Item, Outcome, Work};
use flit_words::NoMemory;
use std::alloc::Global;

/// A Work with room for the outcomes of its calls.
#[derive(Drop)]
pub struct Room {
    pub(crate) work: Work,
    pub(crate) outcomes: Vec<Outcome>,
}

// 1 for a call.
fn one_if_call(item: Item) -> usize
    ensures calls { result ≡ length (calls_in (item ∷ [])) }
    ensures most { result ≤ 1 }
{
    match item {
        Item::Call(_) => 1,
        Item::Evict(_) => 0,
    }
}

// How many of the items are calls.
fn count_calls(items: &[Item]) -> usize
    ensures { result ≡ length (calls_in items.now) }
{
    let mut count = 0;
    for item in items {
        count += one_if_call(*item);
    }
    count
}

/// Puts in the outcomes of calls that nobody has begun.
pub(crate) fn put_unbegun(items: &[Item], outcomes: &mut Vec<Outcome>)
    requires { HasRoomFor items.now outcomes.old }
    ensures { outcomes.new.items ≡ replicate (length (calls_in items.now)) Stopped }
{
    let Ok(()) = outcomes.resize(count_calls(items), Outcome::Stopped) else {
        unreachable!()
    };
}

/// Room for the outcomes of all Works. It is filled by the workers, each in its own thread.
pub(crate) fn rooms_for(alloc: Global, works: Vec<Work>) -> Result<Vec<Room>, NoMemory>
    ensures works { IfOk result (λ rs. map (λ r. r.work) rs.items ≡ works.items) }
    ensures rooms { IfOk result (λ rs. AllByRecursion IsRoom rs.items) }
{
    let mut rooms = Vec::with_capacity(alloc, works.len())?;
    for work in works {
        let outcomes = Vec::with_capacity(alloc, count_calls(&work.items))?;
        rooms.push(Room { work, outcomes })?;
    }
    Ok(rooms)
}
