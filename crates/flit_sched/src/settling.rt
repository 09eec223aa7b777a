ghost use Rattle.std.specs.Prelude.{◌≡◌, ◌≢◌, ◌<◌, ◌≤◌, ℕ, List, None, Some, [], IfNone, IfSome, length, vec_len, vec_capacity};
ghost use Rattle.std.specs.List.{AllByRecursion, Contains};
ghost use Rattle.std.specs.List.Sorted.{IsStrictlyIncreasing};
ghost use Rattle.flit_words.specs.declared.limits.TheConstants.{MOST_WORKERS};
ghost use Rattle.flit_structure.specs.Meanings.{effect_by, key_of as the_key_of};
ghost use Rattle.flit_sched.specs.Settled.{waits_after, waiters_after, raised, AreLastFrom, NoneAt, WaitsAt, Settles};
ghost use Rattle.flit_sched.specs.Kept.{waiting_of};
ghost use Rattle.flit_sched.specs.Seats.{seated};

use crate::books::change;
use crate::players::{Player, Waiting};
use crate::seats::Seat;
use crate::turning::effect;
use flit_model::{Entry, Event};
use flit_structure::Structure;

/// Where an Exchange is won by which a call takes effect, its update waits from now on. `waiters` has, by word, the
/// worker whose update waited there last.
pub(crate) fn wait<S: Structure>(
    structure: &S,
    player: &mut Player<Seat<S::Op>>,
    waiters: &mut Vec<u8>,
    event: Event,
    answer: u64,
)
    requires within { (word from to : ℕ) → event ≡ Event.Exchange word from to →
        word < length waiters.old.items }
    requires small { player.old.worker.name ≤ MOST_WORKERS }
    ensures waits { let m = S.meaning structure.now in
        player.new ≡ record player.old {
          waiting =
              waits_after event answer (effect_by m (seated m player.old.worker)) player.old.waiting;
        } }
    ensures last { let m = S.meaning structure.now in
        waiters.new.items ≡ waiters_after event answer (effect_by m (seated m player.old.worker))
        player.old.worker.name waiters.old.items }
{
    let Event::Exchange { word, old, .. } = event else {
        return;
    };
    if answer == old {
        if let Some(entry) = effect(structure, &player.worker) {
            player.waiting = Some(Waiting { word, entry });
            waiters[word as usize] = player.worker.name as u8;
        }
    }
}

/// The word whose shadow an event raises, which this answer shows.
fn raises(event: Event, answer: u64) -> Option<u32>
    ensures { result ≡ raised event answer }
{
    match event {
        Event::Persist { word, kept } if answer < kept => Some(word),
        _ => None,
    }
}

/// The worker of which an entry waits at a word, from 0, and the entry.
fn waiting_at<W>(players: &[Player<W>], waiters: &[u8], word: u32) -> Option<(usize, Entry)>
    requires within { word < length waiters.now }
    requires last { AreLastFrom waiters.now 1 players.now }
    ensures none { IfNone result (NoneAt word players.now) }
    ensures some { IfSome result (λ r. WaitsAt word players.now r.0 r.1) }
{
    let at = (waiters[word as usize] as usize).checked_sub(1)?;
    let waiting = players.get(at)?.waiting?;
    (waiting.word == word).then_some((at, waiting.entry))
}

/// Where a Persist raises a shadow, the entry that waits there is settled, and the book is kept up.
#[inline(always)]
pub(crate) fn settle<W>(
    players: &mut Vec<Player<W>>,
    waiters: &[u8],
    settled: &mut Vec<Entry>,
    keys: &[u32],
    values: &mut Vec<Option<u32>>,
    event: Event,
    answer: u64,
)
    requires rising { IsStrictlyIncreasing keys.now }
    requires same { length values.old.items ≡ length keys.now }
    requires has { AllByRecursion (λ w. Contains keys.now (the_key_of w.1.call))
        (waiting_of players.old.items) }
    requires room { raised event answer ≢ None → waiting_of players.old.items ≢ [] →
        vec_len settled.old < vec_capacity settled.old }
    requires within { (word : ℕ) → raised event answer ≡ Some word → word < length waiters.now }
    requires last { AreLastFrom waiters.now 1 players.old.items }
    ensures settles { Settles keys.now (raised event answer) players.old.items settled.old.items
        values.old.items players.new.items settled.new.items values.new.items }
    ensures capacity { vec_capacity settled.old ≤ vec_capacity settled.new }
{
    let Some(word) = raises(event, answer) else {
        return;
    };
    let Some((at, entry)) = waiting_at(players, waiters, word) else {
        return;
    };
    players[at].waiting = None;
    if settled.push(entry).is_err() {
        unreachable!();
    }
    change(keys, values, entry.call);
}
