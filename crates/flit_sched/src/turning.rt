ghost use Rattle.std.specs.Prelude.{◌≡◌, ℕ, ◌+◌, ◌<◌, ◌≤◌, IsSome, Option, Some, true};
ghost use Rattle.flit_model.specs.declared.calls.Call.{Call as A_call};
ghost use Rattle.flit_pv.specs.declared.hands.Hand.{Hand as A_hand};
ghost use Rattle.flit_structure.specs.declared.workers.Doing.TheVariants.{Idle, Busy};
ghost use Rattle.flit_structure.specs.Meanings.{MayStart, MayTake, asked_by, effect_by, goes_on};
ghost use Rattle.flit_sched.specs.Seats.{at_rest, doing_of, seated, HasEnded};
ghost use Rattle.flit_sched.specs.Turns.{enters, rested, end_in, tally_in};

use crate::seats::{At, Seat, UnderWay};
use flit_model::{Call, Entry, Event, Item, Reply, Tally};
use flit_pv::{Evict, Hand};
use flit_structure::Structure;
use std::mem;

/// How an event ends the item of its worker.
#[derive(Clone, Copy, Debug, PartialEq, Eq)]
pub enum End {
    /// The worker is still at it.
    NotYet,
    /// The Evict is over.
    Evicted,
    /// The call has its reply; and how many updates were settled at its first event.
    Replied {
        call: Call,
        first: u64,
        reply: Reply,
    },
}

/// Takes the hand of a worker that is at no item out of what it was at last.
fn hand_out<S: Structure>(structure: &S, seat: &mut Seat<S::Op>) -> Hand
    requires rests { at_rest seat.old.at ≡ true }
    requires named { 1 ≤ seat.old.name }
    requires ended { HasEnded (S.meaning structure.now) seat.old.at }
    ensures hand { doing_of (S.meaning structure.now) seat.old.name seat.old.at ≡ Idle result }
    ensures same { seat.new ≡ record seat.old { at = seat.new.at } }
{
    match mem::replace(&mut seat.at, At::New) {
        At::New => Hand::first(seat.name),
        At::Call { op, .. } => structure.finish(op),
        At::Evict { evict, .. } => evict.end().0,
    }
}

/// A worker that is at no item begins a call, in the place of the last one where it was at a call.
fn begin_call<S: Structure>(structure: &S, seat: &mut Seat<S::Op>, call: Call)
    requires rests { at_rest seat.old.at ≡ true }
    requires named { 1 ≤ seat.old.name }
    requires ended { HasEnded (S.meaning structure.now) seat.old.at }
    requires may { (hand : A_hand) → doing_of (S.meaning structure.now) seat.old.name
        seat.old.at ≡ Idle hand → MayStart (S.meaning structure.now).layout hand call
        × (seat.old.number < 4294967295) }
    ensures begun { seated (S.meaning structure.now) seat.new ≡ enters (S.meaning structure.now)
        (seated (S.meaning structure.now) seat.old)
        (doing_of (S.meaning structure.now) seat.old.name seat.old.at) (Some (Item.Call call)) }
    ensures ended { HasEnded (S.meaning structure.now) seat.new.at }
{
    seat.number += 1;
    let going = UnderWay { call, begun: None };
    if let At::Call { op, under_way } = &mut seat.at {
        structure.start_again(op, call);
        *under_way = Some(going);
    } else {
        let hand = hand_out(structure, seat);
        seat.at = At::Call {
            op: structure.start(hand, call),
            under_way: Some(going),
        };
    }
}

/// A worker that is at no item begins one.
pub(crate) fn begin<S: Structure>(structure: &S, seat: &mut Seat<S::Op>, item: Item)
    requires rests { at_rest seat.old.at ≡ true }
    requires named { 1 ≤ seat.old.name }
    requires ended { HasEnded (S.meaning structure.now) seat.old.at }
    requires may { (hand : A_hand) (call : A_call) →
        doing_of (S.meaning structure.now) seat.old.name seat.old.at ≡ Idle hand →
        item ≡ Item.Call call → MayStart (S.meaning structure.now).layout hand call
        × (seat.old.number < 4294967295) }
    ensures begun { seated (S.meaning structure.now) seat.new ≡ enters (S.meaning structure.now)
        (seated (S.meaning structure.now) seat.old)
        (doing_of (S.meaning structure.now) seat.old.name seat.old.at) (Some item) }
    ensures ended { HasEnded (S.meaning structure.now) seat.new.at }
{
    match item {
        Item::Call(call) => begin_call(structure, seat, call),
        Item::Evict(word) => {
            let hand = hand_out(structure, seat);
            seat.at = At::Evict {
                evict: Evict::start(hand, word),
                over: false,
            };
        }
    }
}

/// The event that a worker asks for.
pub(crate) fn asked<S: Structure>(structure: &S, seat: &Seat<S::Op>) -> Option<Event>
    ensures { result ≡ asked_by (S.meaning structure.now)
        (seated (S.meaning structure.now) seat.now) }
{
    match &seat.at {
        At::New => None,
        At::Call { op, under_way } => match under_way {
            Some(_) => structure.ask(op),
            None => None,
        },
        At::Evict { evict, over } => { if *over { None } else { evict.ask() } }
    }
}

/// The update that takes effect by that event, where that is won.
pub(crate) fn effect<S: Structure>(structure: &S, seat: &Seat<S::Op>) -> Option<Entry>
    ensures { result ≡ effect_by (S.meaning structure.now)
        (seated (S.meaning structure.now) seat.now) }
{
    let At::Call { op, under_way } = &seat.at else {
        return None;
    };
    let going = (*under_way)?;
    structure.takes_effect(op).then_some(Entry {
        worker: seat.name,
        number: seat.number,
        call: going.call,
        reply: Reply::Yes,
    })
}

/// Gives a worker its event's answer, when so many updates were settled before the event. It is done with its item
/// where that was the last event.
pub(crate) fn take<S: Structure>(
    structure: &S,
    seat: &mut Seat<S::Op>,
    settled: u64,
    answer: u64,
) -> End
    requires asks { IsSome (asked_by (S.meaning structure.now)
        (seated (S.meaning structure.now) seat.old)) }
    requires told { (op : S.Op) (call : A_call) (begun : Option ℕ) →
        doing_of (S.meaning structure.now) seat.old.name seat.old.at ≡ Busy op call begun →
        MayTake (S.meaning structure.now) op answer }
    ensures rested { let u = seated (S.meaning structure.now) seat.old in
        seated (S.meaning structure.now) seat.new ≡ rested (S.meaning structure.now) u
        (goes_on (S.meaning structure.now) settled u.doing answer) }
    ensures end { result ≡ end_in (S.meaning structure.now)
        (goes_on (S.meaning structure.now) settled
        (doing_of (S.meaning structure.now) seat.old.name seat.old.at) answer) }
    ensures ended { HasEnded (S.meaning structure.now) seat.new.at }
{
    match &mut seat.at {
        At::New => End::NotYet,
        At::Call { op, under_way } => {
            let Some(going) = under_way else {
                return End::NotYet;
            };
            structure.take(op, answer);
            let first = *going.begun.get_or_insert(settled);
            let call = going.call;
            match structure.reply(op) {
                Some(reply) => {
                    *under_way = None;
                    End::Replied { call, first, reply }
                }
                None => End::NotYet,
            }
        }
        At::Evict { evict, over } => {
            if *over {
                return End::NotYet;
            }
            evict.take(answer);
            *over = evict.ask().is_none();
            if *over { End::Evicted } else { End::NotYet }
        }
    }
}

/// The tally of a worker.
pub(crate) fn tally_of<S: Structure>(structure: &S, seat: &Seat<S::Op>) -> Tally
    requires { 1 ≤ seat.now.name }
    ensures { result ≡ tally_in (S.meaning structure.now)
        (doing_of (S.meaning structure.now) seat.now.name seat.now.at) }
{
    match &seat.at {
        At::New => Hand::first(seat.name).tally,
        At::Call { op, .. } => structure.tally(op),
        At::Evict { evict, .. } => evict.tally(),
    }
}
