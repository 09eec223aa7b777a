ghost use Rattle.std.specs.Prelude.{◌≡◌, ℕ, ◌+◌, ◌-◌, ◌<◌, ◌≤◌, [], ◌∷◌, ◌++◌, true, false, IsSome, IsNone, IfSome, IfNone};
ghost use Rattle.flit_words.specs.Layouts.{words_of};
ghost use Rattle.flit_model.specs.declared.calls.Item.TheVariants.{Call as Call_item};
ghost use Rattle.flit_structure.specs.Meanings.{IsServed};
ghost use Rattle.flit_table.specs.declared.views.Made.TheVariants.{Answered, Evicted};
ghost use Rattle.flit_table.specs.Calls.{entry_of};
ghost use Rattle.flit_table.specs.Orders.{AreInOrder};
ghost use Rattle.flit_table.specs.Passes.{BelongsTo, MayWork, MayCall, MayEvict, IsFree, view_of, own_name, own_calls};
ghost use Rattle.flit_table.specs.Steps.{meaning_of};
ghost use Rattle.flit_workers.specs.Works.{Grows, IsRightItem, IsMade, IsCutWithin, IsMadeWithin};

use crate::gates::Gate;
use flit_model::{Call, Item, Reply};
use flit_structure::Structure;
use flit_table::{Pass, Running, Within};
use std::sync::Wait;

/// How an item came out that may make so many events.
#[derive(Clone, Copy)]
pub enum Came {
    /// It was made, by so many events; a call has its reply.
    Made { reply: Option<Reply>, events: u64 },
    /// All events were made, and it is not over.
    Stopped,
}

// Makes a call in at most so many events. It answers the reply and the number of events, if it has one.
fn call_within<S: Structure>(
    running: &Running<S>,
    pass: &mut Pass<S>,
    call: Call,
    steps: u64,
) -> Option<(Reply, u64)>
    requires { MayCall S.meaning running.now pass.old call }
    ensures pass { BelongsTo S.meaning running.now pass.new }
    ensures done { IfSome result (λ r. IsFree pass.new
        × (own_calls pass.new ≡ own_calls pass.old + 1) × (r.1 ≤ steps)
        × Grows (own_name pass.old) (own_calls pass.old)
        (Answered (entry_of (own_name pass.old) (own_calls pass.old + 1) call r.0) ∷ []) r.1
        (view_of pass.old) (view_of pass.new) × (0 < r.1) × AreInOrder (view_of pass.new)) }
    ensures stopped { IfNone result (IsCutWithin (meaning_of S.meaning running.now)
        running.now.origin (Call_item call) steps pass.old pass.new) }
{
    match running.answer_within(pass, call, steps) {
        Within::Done { reply, made } => Some((reply, made)),
        Within::Stopped => None,
    }
}

// Makes an item in at most so many events. The gate is told of a call.
pub(crate) fn item_within<S: Structure, G: Gate>(
    running: &Running<S>,
    pass: &mut Pass<S>,
    item: Item,
    steps: u64,
    gate: &G,
) -> Came
    requires pass { MayWork S.meaning running.now pass.old }
    requires right { IsRightItem (meaning_of S.meaning running.now).layout item }
    requires count { own_calls pass.old < 4294967295 }
    ensures pass { BelongsTo S.meaning running.now pass.new }
    ensures made { IsMadeWithin (meaning_of S.meaning running.now) running.now.origin item steps
        pass.old pass.new result }
{
    match item {
        Item::Call(call) => {
            gate.before(pass.name(), pass.calls() + 1);
            let Some((reply, events)) = call_within(running, pass, call, steps) else {
                return Came::Stopped;
            };
            gate.after(pass.name(), pass.calls(), reply);
            Came::Made {
                reply: Some(reply),
                events,
            }
        }
        Item::Evict(word) => {
            if running.evict(pass, word, steps) {
                Came::Made {
                    reply: None,
                    events: 2,
                }
            } else {
                Came::Stopped
            }
        }
    }
}

// Makes a call, and waits for its reply.
fn call<S: Structure, R: Wait>(
    rt: &R,
    running: &Running<S>,
    pass: &mut Pass<S>,
    call: Call,
) -> Reply
    requires { MayCall S.meaning running.now pass.old call }
    ensures pass { BelongsTo S.meaning running.now pass.new }
    ensures done { IsFree pass.new × (own_calls pass.new ≡ own_calls pass.old + 1)
        × ((count : ℕ) × Grows (own_name pass.old) (own_calls pass.old)
        (Answered (entry_of (own_name pass.old) (own_calls pass.old + 1) call result) ∷ []) count
        (view_of pass.old) (view_of pass.new) × (0 < count)) × AreInOrder (view_of pass.new) }
{
    running.answer(rt, pass, call)
}

// Writes a word back, in two events.
fn evict<S: Structure>(running: &Running<S>, pass: &mut Pass<S>, word: u32)
    requires { MayEvict S.meaning running.now pass.old word }
    ensures pass { BelongsTo S.meaning running.now pass.new }
    ensures done { IsFree pass.new × (own_calls pass.new ≡ own_calls pass.old)
        × Grows (own_name pass.old) (own_calls pass.old) (Evicted (own_name pass.old) word ∷ []) 2
        (view_of pass.old) (view_of pass.new) × AreInOrder (view_of pass.new) }
{
    if !running.evict(pass, word, 2) {
        unreachable!()
    }
}

// Makes an item. It answers the reply of a call. The gate is told of a call.
pub(crate) fn item_made<S: Structure, G: Gate, R: Wait>(
    rt: &R,
    running: &Running<S>,
    pass: &mut Pass<S>,
    item: Item,
    gate: &G,
) -> Option<Reply>
    requires pass { MayWork S.meaning running.now pass.old }
    requires right { IsRightItem (meaning_of S.meaning running.now).layout item }
    requires count { own_calls pass.old < 4294967295 }
    ensures pass { BelongsTo S.meaning running.now pass.new }
    ensures made { (count : ℕ) × IsMade item result count pass.old pass.new }
{
    match item {
        Item::Call(asked) => {
            gate.before(pass.name(), pass.calls() + 1);
            let reply = call(rt, running, pass, asked);
            gate.after(pass.name(), pass.calls(), reply);
            Some(reply)
        }
        Item::Evict(word) => {
            evict(running, pass, word);
            None
        }
    }
}
