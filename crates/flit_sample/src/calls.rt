ghost use Rattle.std.specs.Prelude.{◌≡◌, is_none};
ghost use Rattle.flit_place.specs.Tags.{Place};
ghost use Rattle.flit_pv.specs.Exchanges.{exchange_of};
ghost use Rattle.flit_crew.specs.Machines.{machine_asks, exchanges_now};
ghost use Rattle.flit_one_key_crew.specs.OneKeyAnatomy.{machine_at};

use crate::samples::Sample;
use crate::steps::{answers, linked_so};
use arrayvec::ArrayVec;
use flit_model::{Call, Event, Reply, Tally};
use flit_one_key::{Phase, SampleOp};
use flit_place::Placement;
use flit_pv::{
    Complete, Exchanging, Hand, Loading, PExchange, PLoad, PrivateStore, Storing, VLoading,
};
use flit_rows::Taking;
use flit_structure::Structure;
use flit_words::{Layout, Word};

/// Whether the Exchange that links or unlinks the row comes next, or without a slot its second try.
fn exchanges_now<P: Placement>(hand: &Hand, place: &P, link: &PExchange) -> bool
    ensures { result ≡ exchanges_now (P.place place.now) link.now.at
        (exchange_of hand.now link.now) }
{
    match link.at {
        Exchanging::Ready => hand.queue.is_empty() && place.slot_of(link.word).is_none(),
        Exchanging::Tries { .. } | Exchanging::TriesBare => true,
        Exchanging::WritesBack
        | Exchanging::Withdraws
        | Exchanging::Lowers { .. }
        | Exchanging::Ended(_) => false,
    }
}

/// Whether no event comes any more: one look at the phase, and no event is made for it.
fn rests(op: &SampleOp) -> bool
    ensures { (p : Place) → result ≡ is_none (machine_asks p (machine_at op.now.at)) }
{
    match &op.at {
        Phase::Head(load) => load.loaded().is_some(),
        Phase::Key { load, .. } => load.loaded().is_some(),
        Phase::Value(load) => load.loaded().is_some(),
        Phase::Row { take, .. } => take.ended().is_some(),
        Phase::Words { .. } => op.store.ended().is_some(),
        Phase::RowValue { .. } => op.store.ended().is_some(),
        Phase::Link(link) => link.ended().is_some(),
        Phase::Ends => op.hand.queue.is_empty(),
        Phase::Rests => true,
    }
}

impl<P: Placement + Drop> Structure for Sample<P> {
    ghost use Rattle.flit_sample.specs.Sampling.{sample, sample_lawful, sample_wrappable};

    type Op = SampleOp;

    ghost meaning = { sample P.place };

    fn layout(&self) -> &Layout {
        &self.layout
    }

    fn start(&self, mut hand: Hand, call: Call) -> SampleOp {
        hand.number += 1;
        hand.tally.tries = hand.tally.tries.saturating_add(1);
        SampleOp {
            call,
            reply: Reply::No,
            hand,
            store: PrivateStore::start(0, ArrayVec::new(), 0),
            at: Phase::Head(PLoad::start(0)),
        }
    }

    #[tactic(auto, using(flit_one_key::specs::Phases::same_hand))]
    fn start_again(&self, op: &mut SampleOp, call: Call) {
        op.hand.number += 1;
        op.hand.tally.tries = op.hand.tally.tries.saturating_add(1);
        op.call = call;
        op.reply = Reply::No;
        op.at = Phase::Head(PLoad::start(0));
    }

    #[inline(always)]
    fn ask(&self, op: &SampleOp) -> Option<Event> {
        match &op.at {
            Phase::Head(load) => load.ask(&op.hand, &self.place),
            Phase::Key { load, .. } => load.ask(&op.hand),
            Phase::Value(load) => load.ask(&op.hand),
            Phase::Row { take, .. } => take.ask(&op.hand),
            Phase::Words { .. } => op.store.ask(&op.hand),
            Phase::RowValue { .. } => op.store.ask(&op.hand),
            Phase::Link(link) => link.ask(&op.hand, &self.place),
            Phase::Ends => Complete.ask(&op.hand),
            Phase::Rests => None,
        }
    }

    #[inline(always)]
    fn take(&self, op: &mut SampleOp, answer: u64) {
        match &mut op.at {
            Phase::Head(load) => {
                load.take(&mut op.hand, &self.place, answer);
                if let Loading::Has { raw } = load.at {
                    self.head_so(op, raw);
                }
            }
            Phase::Key { head, load } => {
                load.take(&op.hand, answer);
                let head = *head;
                if let VLoading::Has { raw } = load.at {
                    self.key_got(op, head, raw);
                }
            }
            Phase::Value(load) => {
                load.take(&op.hand, answer);
                if let VLoading::Has { raw } = load.at {
                    let value = Word::unpack(raw).value;
                    answers(op, Reply::Found { value });
                }
            }
            Phase::Row { head, take } => {
                take.take(&mut op.hand, &self.pool, answer);
                let head = *head;
                if let Taking::Ended(took) = take.at {
                    self.row_so(op, head, took);
                }
            }
            Phase::Words { head } => {
                let head = *head;
                op.store.take(&mut op.hand, answer);
                if let Storing::Ended(how) = op.store.at {
                    self.words_so(op, head, how);
                }
            }
            Phase::RowValue { head } => {
                let head = *head;
                op.store.take(&mut op.hand, answer);
                if let Storing::Ended(how) = op.store.at {
                    self.row_value_so(op, head, how);
                }
            }
            Phase::Link(link) => {
                link.take(&mut op.hand, &self.place, answer);
                if let Exchanging::Ended(how) = link.at {
                    linked_so(op, how);
                }
            }
            Phase::Ends => Complete.take(&mut op.hand, answer),
            Phase::Rests => {}
        }
    }

    fn takes_effect(&self, op: &SampleOp) -> bool {
        match &op.at {
            Phase::Link(link) => exchanges_now(&op.hand, &self.place, link),
            _ => false,
        }
    }

    fn reply(&self, op: &SampleOp) -> Option<Reply> {
        if rests(op) { Some(op.reply) } else { None }
    }

    fn tally(&self, op: &SampleOp) -> Tally {
        op.hand.tally
    }

    fn finish(&self, op: SampleOp) -> Hand {
        op.hand
    }

    ghost lawful = { sample_lawful P.place };

    ghost wrappable = { sample_wrappable P.place };
}
