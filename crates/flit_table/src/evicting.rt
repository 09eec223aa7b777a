ghost use Rattle.std.specs.Prelude.{◌≡◌, ℕ, ◌<◌, IsSome, Some};
ghost use Rattle.flit_words.specs.Layouts.{words_of};
ghost use Rattle.flit_table.specs.declared.views.View.{View as A_view};
ghost use Rattle.flit_table.specs.declared.passes.Rest.TheVariants.{Stopped};
ghost use Rattle.flit_table.specs.declared.views.Start.TheVariants.{Go, Sweep};
ghost use Rattle.flit_table.specs.Moves.{MayEnter};
ghost use Rattle.flit_table.specs.Steps.{Belongs, meaning_of};
ghost use Rattle.flit_table.specs.Calls.{Sweeps, Evicts};
ghost use Rattle.flit_table.specs.Passes.{view_of, own_calls, hand_kept, IsRested, BelongsTo, MayEvict, IsEvicted};

use crate::passes::{Pass, Rest};
use crate::running::Running;
use crate::views::{Start, View};
use atomic_table::Seat;
use flit_model::{Event, Tally};
use flit_pv::{Evict, Hand};
use flit_structure::Structure;
use flit_words::bare;
use std::mem::replace;

// Takes a pass's hand out, of the operation that ended last where it is there.
fn hand_out<S: Structure>(structure: &S, rest: &mut Rest<S::Op>) -> Hand
    requires { IsRested (S.meaning structure.now) rest.old }
    ensures { hand_kept (S.meaning structure.now) rest.old ≡ Some result }
{
    let (tally, start) = (Tally::default(), Start::Go);
    match replace(rest, Rest::Stopped { tally, start }) {
        Rest::Hand(hand) => hand,
        Rest::Ended(op) => structure.finish(op),
        Rest::Stopped { .. } => unreachable!(),
    }
}

// A pass that is stopped in an evict.
fn stopped_in<O>(evict: &Evict) -> Rest<O>
    ensures { result ≡ Stopped evict.now.hand.tally Go }
{
    Rest::Stopped {
        tally: evict.tally(),
        start: Start::Go,
    }
}

impl<S: Structure> Running<S> {
    // The load of an evict.
    fn sweep(&self, seat: &mut Seat<u64, View<S, S::Op>>, word: u32) -> u64
        requires pass { Belongs self.now seat.old }
        requires may { MayEnter (meaning_of S.meaning self.now) (Sweep word) seat.old.me.0.post }
        requires range { word < words_of (meaning_of S.meaning self.now).layout }
        ensures pass { Belongs self.now seat.new }
        ensures sweeps { Sweeps (meaning_of S.meaning self.now) self.now.origin word seat.old.me.0
            seat.new.me.0 result }
    {
        let start = Start::Sweep(word);
        self.step(seat, &start, Event::Load { word })
    }

    // Its write-back.
    fn write_back(&self, seat: &mut Seat<u64, View<S, S::Op>>, word: u32, found: u64) -> u64
        requires pass { Belongs self.now seat.old }
        requires range { word < words_of (meaning_of S.meaning self.now).layout }
        requires sweeps { (v : A_view S S.Op) × Sweeps (meaning_of S.meaning self.now)
            self.now.origin word v seat.old.me.0 found }
        ensures pass { Belongs self.now seat.new }
        ensures evicts { (v : A_view S S.Op) → Sweeps (meaning_of S.meaning self.now)
            self.now.origin word v seat.old.me.0 found →
            Evicts (meaning_of S.meaning self.now) self.now.origin word v seat.new.me.0 }
    {
        let start = Start::Go;
        let kept = bare(found);
        self.step(seat, &start, Event::Persist { word, kept })
    }

    /// Writes a word back that nobody asked for, by its load and then its write-back. It answers true where it made both
    /// events. It answers false exactly where it may not make two; it then made as many as it may, and the pass is
    /// stopped.
    pub fn evict(&self, pass: &mut Pass<S>, word: u32, steps: u64) -> bool
        requires { MayEvict S.meaning self.now pass.old word }
        ensures pass { BelongsTo S.meaning self.now pass.new }
        ensures calls { own_calls pass.new ≡ own_calls pass.old }
        ensures evicted { IsEvicted S.meaning self.now word steps (view_of pass.old) pass.new
            result }
    {
        let hand = hand_out(&self.structure, &mut pass.held.rest);
        let mut evict = Evict::start(hand, word);
        if steps == 0 {
            pass.held.rest = stopped_in(&evict);
            return false;
        }
        let found = self.sweep(&mut pass.held.seat, word);
        evict.take(found);
        if steps == 1 {
            pass.held.rest = stopped_in(&evict);
            return false;
        }
        let was = self.write_back(&mut pass.held.seat, word, found);
        evict.take(was);
        let (hand, ()) = evict.end();
        pass.held.rest = Rest::Hand(hand);
        true
    }
}
