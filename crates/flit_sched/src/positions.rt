ghost use Rattle.std.specs.Prelude.{◌≡◌, ℕ, ◌<◌, ◌≤◌, ◌^◌, ◌++◌, ◌∷◌, [], true, IsTrue, ◌↔◌, take, length, vec_len, vec_capacity};
ghost use Rattle.std.specs.FinMap as map_of;
ghost use Rattle.flit_model.specs.Maps.{Map, map_after_all};
ghost use Rattle.flit_structure.specs.Meanings.{key_of as the_key_of};
ghost use Rattle.flit_model.specs.Histories.{is_read};
ghost use Rattle.flit_structure.specs.Lawful.{IsPlacedFrom};
ghost use Rattle.flit_sched.specs.Books.{reply_at};
ghost use Rattle.flit_sched.specs.Reads.{IsReplyBehind, IsLeastPlace};

use crate::books::{after_call, reply_to};
use crate::players::key_of;
use flit_model::{Call, Entry, Placed, Reply};

/// Whether a map that has this value at the call's key answers so.
fn is_right(value: Option<u32>, call: Call, reply: Reply) -> bool
    ensures { IsTrue result ↔ (reply_at call value ≡ reply) }
{
    reply_to(value, call) == reply
}

/// The least number of updates, from `first` on, behind which the reply is right; or the number of all updates, where
/// there is none before. `noted` is what the map had at the call's key behind the first updates.
pub(crate) fn position(
    updates: &[Entry],
    first: usize,
    noted: Option<u32>,
    call: Call,
    reply: Reply,
) -> usize
    requires { first ≤ length updates.now }
    ensures from { first ≤ result }
    ensures within { result ≤ length updates.now }
    ensures right { (content : Map) → noted ≡ map_of.get
        (map_after_all content (take first updates.now)) (the_key_of call) →
        result < length updates.now → IsReplyBehind content updates.now call reply result }
    ensures least { (content : Map) (n : ℕ) → noted ≡ map_of.get
        (map_after_all content (take first updates.now)) (the_key_of call) → first ≤ n →
        n < result → ¬ (IsReplyBehind content updates.now call reply n) }
{
    let key = key_of(call);
    let mut value = noted;
    for at in first..updates.len() {
        if is_right(value, call, reply) {
            return at;
        }
        let update = updates[at];
        if key_of(update.call) == key {
            value = after_call(value, update.call);
        }
    }
    updates.len()
}

/// Places a completed read at the least position, from `first` on, at which its reply is right.
pub(crate) fn place(
    settled: &[Entry],
    placed: &mut Vec<Placed>,
    first: u64,
    noted: Option<u32>,
    entry: Entry,
)
    requires first { first ≤ length settled.now }
    requires small { length settled.now < 2 ^ 32 }
    requires room { vec_len placed.old < vec_capacity placed.old }
    ensures capacity { vec_capacity placed.old ≤ vec_capacity placed.new }
    ensures placed { (content : Map) → noted ≡ map_of.get
        (map_after_all content (take first settled.now)) (the_key_of entry.call) →
        IsPlacedFrom first content settled.now entry → is_read entry ≡ true → (position : ℕ)
        × (placed.new.items ≡ placed.old.items ++ record { position = position; entry = entry }
        ∷ []) × IsLeastPlace content settled.now first
        (record { position = position; entry = entry }) }
{
    let position = position(settled, first as usize, noted, entry.call, entry.reply) as u32;
    if placed.push(Placed { position, entry }).is_err() {
        unreachable!();
    }
}
