ghost use Rattle.std.specs.Prelude.{◌≡◌, ℕ, ◌+◌, ◌<◌, ◌≤◌, false, None, Some, Option};
ghost use Rattle.flit_model.specs.declared.calls.Call.{Call as A_call};
ghost use Rattle.flit_structure.specs.Meanings.{IsServed, replied, tally};
ghost use Rattle.flit_table.specs.declared.passes.Holder.{Holder as A_holder};
ghost use Rattle.flit_table.specs.declared.passes.Rest.TheVariants.{Ended, Stopped};
ghost use Rattle.flit_table.specs.declared.passes.Within.TheVariants.{Done};
ghost use Rattle.flit_table.specs.declared.views.View.{View as A_view};
ghost use Rattle.flit_table.specs.Steps.{meaning_of, Belongs};
ghost use Rattle.flit_table.specs.Calls.{IsUnderWayAt};
ghost use Rattle.flit_table.specs.Passes.{view_of, own_calls, is_stopped, MayBeginIn, begun_in, IsHeld, IsCalling, HasGoneOn, BelongsTo, MayCall, IsAnswered};

use crate::passes::{Holder, Pass, Rest, Within};
use crate::running::Running;
use crate::views::{Start, View};
use atomic_table::Seat;
use flit_model::{Call, Reply, Tally};
use flit_structure::Structure;
use std::mem::replace;
use std::sync::Wait;

// Begins a call in the place of the one that ended last, or with the hand.
fn begin_in<S: Structure>(structure: &S, rest: &mut Rest<S::Op>, call: Call)
    requires { MayBeginIn (S.meaning structure.now) rest.old call }
    ensures { rest.new ≡ begun_in (S.meaning structure.now) rest.old call }
{
    if let Rest::Ended(op) = rest {
        structure.start_again(op, call);
        return;
    }
    let (tally, start) = (Tally::default(), Start::Go);
    if let Rest::Hand(hand) = replace(rest, Rest::Stopped { tally, start }) {
        *rest = Rest::Ended(structure.start(hand, call));
    }
}

impl<S: Structure> Running<S> {
    // Begins a call of a pass, and answers what its first event begins.
    fn begin(&self, held: &mut Holder<S, S::Op>, call: Call) -> Start
        requires pass { IsHeld (meaning_of S.meaning self.now) self.now held.old }
        requires free { is_stopped held.old.rest ≡ false }
        requires served { IsServed (meaning_of S.meaning self.now).layout call }
        requires count { held.old.calls < 4294967295 }
        ensures { IsCalling (meaning_of S.meaning self.now) self.now result call held.old held.new 0
            None }
    {
        held.calls += 1;
        begin_in(&self.structure, &mut held.rest, call);
        Start::Begin(call)
    }

    // Makes at most so many events of an operation; the first begins what waits. It answers how many, which are fewer
    // only where the operation has its reply.
    fn make_events(
        &self,
        seat: &mut Seat<u64, View<S, S::Op>>,
        op: &mut S::Op,
        start: &mut Start,
        steps: u64,
    ) -> u64
        requires pass { Belongs self.now seat.old }
        requires runs { (call : A_call) × (v : A_view S S.Op) × (made : ℕ)
            × IsUnderWayAt (meaning_of S.meaning self.now) self.now.origin start.old call v
            seat.old.me.0 op.old made None }
        ensures pass { Belongs self.now seat.new }
        ensures most { result ≤ steps }
        ensures all { replied (meaning_of S.meaning self.now) op.new ≡ None → result ≡ steps }
        ensures runs { (call : A_call) (v : A_view S S.Op) (made : ℕ) →
            IsUnderWayAt (meaning_of S.meaning self.now) self.now.origin start.old call v
            seat.old.me.0 op.old made None → IsUnderWayAt (meaning_of S.meaning self.now)
            self.now.origin start.new call v seat.new.me.0 op.new (made + result)
            (replied (meaning_of S.meaning self.now) op.new) }
    {
        let mut made = 0;
        while made < steps {
            let Some(event) = self.structure.ask(op) else {
                return made;
            };
            let answer = self.step(seat, start, event);
            self.structure.take(op, answer);
            *start = Start::Go;
            made += 1;
            // Only behind an event, since the load that a search starts with may begin its call.
            made += self.structure.make_loads(op, self, seat, steps - made);
        }
        steps
    }

    // Goes on with the call of a pass by at most so many events. It answers the reply, if the call then has one, and how
    // many events were made.
    fn go_on(
        &self,
        held: &mut Holder<S, S::Op>,
        start: &mut Start,
        steps: u64,
    ) -> Option<(Reply, u64)>
        requires { (call : A_call) × (h : A_holder S S.Op) × (made : ℕ)
            × IsCalling (meaning_of S.meaning self.now) self.now start.old call h held.old made
            None }
        ensures { (call : A_call) (h : A_holder S S.Op) (made : ℕ) →
            IsCalling (meaning_of S.meaning self.now) self.now start.old call h held.old made None →
            HasGoneOn (meaning_of S.meaning self.now) self.now start.new call h held.new made steps
            result }
    {
        let Rest::Ended(op) = &mut held.rest else {
            unreachable!()
        };
        let made = self.make_events(&mut held.seat, op, start, steps);
        let reply = self.structure.reply(op)?;
        Some((reply, made))
    }

    // Stops a pass in its call.
    fn stop(&self, held: &mut Holder<S, S::Op>, start: Start)
        requires { (op : S.Op) × (held.old.rest ≡ Ended op) }
        ensures { (op : S.Op) → held.old.rest ≡ Ended op →
            held.new ≡ record held.old {
              rest = Stopped (tally (meaning_of S.meaning self.now) op)
                  start;
            } }
    {
        let Rest::Ended(op) = &held.rest else {
            unreachable!()
        };
        let tally = self.structure.tally(op);
        held.rest = Rest::Stopped { tally, start };
    }

    /// Makes a call, in at most so many events. A call that is stopped before its reply stops the pass, which keeps it.
    pub fn answer_within(&self, pass: &mut Pass<S>, call: Call, steps: u64) -> Within
        requires { MayCall S.meaning self.now pass.old call }
        ensures pass { BelongsTo S.meaning self.now pass.new }
        ensures calls { own_calls pass.new ≡ own_calls pass.old + 1 }
        ensures answered { IsAnswered S.meaning self.now call steps (view_of pass.old) pass.new
            result }
    {
        let mut start = self.begin(&mut pass.held, call);
        let Some((reply, made)) = self.go_on(&mut pass.held, &mut start, steps) else {
            self.stop(&mut pass.held, start);
            return Within::Stopped;
        };
        Within::Done { reply, made }
    }

    /// Makes a call and answers its reply. It may never return.
    pub fn answer<R: Wait>(&self, rt: &R, pass: &mut Pass<S>, call: Call) -> Reply
        requires { MayCall S.meaning self.now pass.old call }
        ensures pass { BelongsTo S.meaning self.now pass.new }
        ensures calls { own_calls pass.new ≡ own_calls pass.old + 1 }
        ensures answered { (made : ℕ) × IsAnswered S.meaning self.now call made (view_of pass.old)
            pass.new (Done result made) }
    {
        let mut start = self.begin(&mut pass.held, call);
        for _ in rt.forever() {
            if let Some((reply, _)) = self.go_on(&mut pass.held, &mut start, u64::MAX) {
                return reply;
            }
        }
        unreachable!()
    }
}
