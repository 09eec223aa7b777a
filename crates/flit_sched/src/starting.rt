ghost use Rattle.std.specs.Prelude.{◌≡◌, ◌<◌, ◌≤◌, Some, length, slice_get};
ghost use Rattle.std.specs.List.{AllByRecursion, Contains};
ghost use Rattle.std.specs.FinMap as map_of;
ghost use Rattle.std.specs.List.Sorted.{IsStrictlyIncreasing};
ghost use Rattle.flit_model.specs.declared.calls.Call.{Call as A_call};
ghost use Rattle.flit_model.specs.declared.events.Event.{Event as An_event};
ghost use Rattle.flit_structure.specs.declared.workers.Doing.TheVariants.{Idle};
ghost use Rattle.flit_structure.specs.Meanings.{MayStart, asked_by, key_of as the_key_of};
ghost use Rattle.flit_sched.specs.Turns.{entered};
ghost use Rattle.flit_sched.specs.Kept.{part_of, IsRawEvent, IsKeyed};
ghost use Rattle.flit_sched.specs.Seats.{seated, played, HasEnded};
ghost use Rattle.flit_sched.specs.Starting.{MayBegin, IsNoted, IsNotedOf};

use crate::books::value_at;
use crate::players::{Player, key_of};
use crate::seats::Seat;
use crate::turning::{asked, begin};
use flit_model::{Event, Item};
use flit_structure::Structure;

/// The words that an event writes have 64 bits.
fn is_raw(event: Event)
    ensures { IsRawEvent event }
{
    match event {
        Event::Exchange { new, .. } => {
            let _ = new;
        }
        Event::Persist { kept, .. } => {
            let _ = kept;
        }
        Event::Store { new, .. } => {
            let _ = new;
        }
        _ => {}
    }
}

/// What the map has at the key of an item that begins; of an Evict, what was noted stays.
fn noted_of(noted: Option<u32>, item: Item, keys: &[u32], values: &[Option<u32>]) -> Option<u32>
    requires rising { IsStrictlyIncreasing keys.now }
    requires has { IsKeyed keys.now item }
    requires same { length values.now ≡ length keys.now }
    ensures { IsNotedOf keys.now values.now (Some item) noted result }
{
    match item {
        Item::Call(call) => value_at(keys, values, key_of(call)),
        Item::Evict(_) => noted,
    }
}

/// A worker that is at no item begins its next one; of a call it is noted what the map has at its key.
fn enter<S: Structure>(
    structure: &S,
    player: &mut Player<Seat<S::Op>>,
    keys: &[u32],
    values: &[Option<u32>],
)
    requires within { player.old.over < length player.old.work.items.items }
    requires named { 1 ≤ player.old.worker.name }
    requires ended { HasEnded (S.meaning structure.now) player.old.worker.at }
    requires may { MayBegin (S.meaning structure.now) keys.now
        (seated (S.meaning structure.now) player.old.worker)
        (slice_get player.old.work.items.items player.old.over) }
    requires rising { IsStrictlyIncreasing keys.now }
    requires same { length values.now ≡ length keys.now }
    ensures begun { let m = S.meaning structure.now in
        played m player.new ≡ record (played m player.old)
        { worker = entered m (part_of (played m player.old)); noted = player.new.noted } }
    ensures ended { HasEnded (S.meaning structure.now) player.new.worker.at }
    ensures noted { IsNoted keys.now values.now
        (seated (S.meaning structure.now) player.old.worker).doing
        (slice_get player.old.work.items.items player.old.over) player.old.noted player.new.noted }
{
    if !player.worker.rests() {
        return;
    }
    let item = player.work.items[player.over];
    player.noted = noted_of(player.noted, item, keys, values);
    begin(structure, &mut player.worker, item);
}

/// A worker goes on with its item, or begins its next one. It answers the event that the worker then asks for.
pub(crate) fn start_turn<S: Structure>(
    structure: &S,
    player: &mut Player<Seat<S::Op>>,
    keys: &[u32],
    values: &[Option<u32>],
) -> Event
    requires within { player.old.over < length player.old.work.items.items }
    requires named { 1 ≤ player.old.worker.name }
    requires ended { HasEnded (S.meaning structure.now) player.old.worker.at }
    requires may { MayBegin (S.meaning structure.now) keys.now
        (seated (S.meaning structure.now) player.old.worker)
        (slice_get player.old.work.items.items player.old.over) }
    requires asks { let m = S.meaning structure.now in (e : An_event)
        × (asked_by m (entered m (part_of (played m player.old))) ≡ Some e) }
    requires rising { IsStrictlyIncreasing keys.now }
    requires same { length values.now ≡ length keys.now }
    ensures begun { let m = S.meaning structure.now in
        played m player.new ≡ record (played m player.old)
        { worker = entered m (part_of (played m player.old)); noted = player.new.noted } }
    ensures ended { HasEnded (S.meaning structure.now) player.new.worker.at }
    ensures raw { IsRawEvent result }
    ensures asks { asked_by (S.meaning structure.now)
        (seated (S.meaning structure.now) player.new.worker) ≡ Some result }
    ensures noted { IsNoted keys.now values.now
        (seated (S.meaning structure.now) player.old.worker).doing
        (slice_get player.old.work.items.items player.old.over) player.old.noted player.new.noted }
{
    enter(structure, player, keys, values);
    let Some(event) = asked(structure, &player.worker) else {
        unreachable!();
    };
    is_raw(event);
    event
}
