ghost use Rattle.std.specs.Prelude.{◌≡◌, is_none};
ghost use Rattle.flit_pv.specs.Exchanges.{exchange_of};
ghost use Rattle.flit_list_steps.specs.Steps.{op_asked, exchanges_now};

use crate::inserting::key_of;
use crate::lists::List;
use arrayvec::ArrayVec;
use flit_list_steps::{LinkWord, ListOp, Path, Phase};
use flit_model::{Call, Event, Reply, Tally};
use flit_place::Placement;
use flit_pv::{Complete, Exchanging, Hand, PExchange, PrivateStore, VLoad};
use flit_structure::{Loader, Structure};
use flit_words::Layout;

const NO_WORD: LinkWord = LinkWord {
    word: 0,
    raw: 0,
    confirmed: false,
};

const NO_PATH: Path = Path {
    back: None,
    pred: NO_WORD,
    next: NO_WORD,
};

/// Whether its Exchange comes next, or without a slot its second try.
fn exchanges_now<P: Placement>(hand: &Hand, place: &P, link: &PExchange) -> bool
    ensures { result ≡ exchanges_now (P.place place.now) link.now.at
        (exchange_of hand.now link.now) }
{
    match link.at {
        Exchanging::Ready => hand.queue.is_empty() && place.slot_of(link.word).is_none(),
        Exchanging::Tries { .. } | Exchanging::TriesBare => true,
        Exchanging::WritesBack
        | Exchanging::Withdraws
        | Exchanging::Lowers { .. }
        | Exchanging::Ended(_) => false,
    }
}

impl<P: Placement + Drop> List<P> {
    /// Whether no event comes any more: one look at the phase, and but for a confirmation no event is made for it.
    fn rests(&self, op: &ListOp) -> bool
        ensures { result ≡ is_none (op_asked (P.place self.now.place) op.now) }
    {
        match &op.at {
            Phase::Head(load) => load.loaded().is_some(),
            Phase::Next(load) => load.loaded().is_some(),
            Phase::Key(load) => load.loaded().is_some(),
            Phase::Confirming { confirm, .. } => confirm.ask(&op.hand, &self.place).is_none(),
            Phase::Help(help) => help.ended().is_some(),
            Phase::Row(take) => take.ended().is_some(),
            Phase::Words => op.store.ended().is_some(),
            Phase::RowValue => op.store.ended().is_some(),
            Phase::Link(link) => link.ended().is_some(),
            Phase::Mark(mark) => mark.ended().is_some(),
            Phase::Tidy(tidy) => tidy.ended().is_some(),
            Phase::Value(load) => load.loaded().is_some(),
            Phase::Ends => op.hand.queue.is_empty(),
            Phase::Rests => true,
        }
    }
}

impl<P: Placement + Drop> Structure for List<P> {
    ghost use Rattle.flit_list.specs.Lists.{list_of, list_is_lawful, list_is_wrappable};

    type Op = ListOp;

    ghost meaning = { list_of P.place };

    fn layout(&self) -> &Layout {
        &self.layout
    }

    fn start(&self, mut hand: Hand, call: Call) -> ListOp {
        hand.number += 1;
        hand.tally.tries = hand.tally.tries.saturating_add(1);
        ListOp {
            call,
            reply: Reply::No,
            hand,
            path: NO_PATH,
            store: PrivateStore::start(0, ArrayVec::new(), 0),
            at: Phase::Head(VLoad::start(self.head(key_of(call)))),
        }
    }

    #[tactic(auto, using(flit_list_steps::specs::Phases::same_hand))]
    fn start_again(&self, op: &mut ListOp, call: Call) {
        op.hand.number += 1;
        op.hand.tally.tries = op.hand.tally.tries.saturating_add(1);
        op.call = call;
        op.reply = Reply::No;
        op.path = NO_PATH;
        op.at = Phase::Head(VLoad::start(self.head(key_of(call))));
    }

    #[inline(always)]
    fn ask(&self, op: &ListOp) -> Option<Event> {
        // Nearly all events are a search's loads, so these come before the table of phases.
        if let Phase::Head(load) | Phase::Next(load) | Phase::Key(load) = &op.at {
            return load.ask(&op.hand);
        }
        match &op.at {
            Phase::Head(load) => load.ask(&op.hand),
            Phase::Next(load) => load.ask(&op.hand),
            Phase::Key(load) => load.ask(&op.hand),
            Phase::Confirming { confirm, .. } => confirm.ask(&op.hand, &self.place),
            Phase::Help(help) => help.ask(&op.hand, &self.place),
            Phase::Row(take) => take.ask(&op.hand),
            Phase::Words => op.store.ask(&op.hand),
            Phase::RowValue => op.store.ask(&op.hand),
            Phase::Link(link) => link.ask(&op.hand, &self.place),
            Phase::Mark(mark) => mark.ask(&op.hand, &self.place),
            Phase::Tidy(tidy) => tidy.ask(&op.hand, &self.place),
            Phase::Value(load) => load.ask(&op.hand),
            Phase::Ends => Complete.ask(&op.hand),
            Phase::Rests => None,
        }
    }

    #[inline(always)]
    fn take(&self, op: &mut ListOp, answer: u64) {
        self.answered(op, answer);
    }

    #[inline(always)]
    fn make_loads<L: Loader<ListOp>>(
        &self,
        op: &mut ListOp,
        loader: &L,
        seat: &mut L::Seat,
        most: u64,
    ) -> u64 {
        if let Phase::Next(load) = &op.at {
            if load.loaded().is_none() {
                let word = load.word;
                return self.goes_along(op, word, loader, seat, most);
            }
        }
        0
    }

    fn takes_effect(&self, op: &ListOp) -> bool {
        match &op.at {
            Phase::Link(link) => exchanges_now(&op.hand, &self.place, link),
            Phase::Mark(mark) => exchanges_now(&op.hand, &self.place, mark),
            _ => false,
        }
    }

    fn reply(&self, op: &ListOp) -> Option<Reply> {
        if self.rests(op) { Some(op.reply) } else { None }
    }

    fn tally(&self, op: &ListOp) -> Tally {
        op.hand.tally
    }

    fn finish(&self, op: ListOp) -> Hand {
        op.hand
    }

    ghost lawful = { list_is_lawful P.place };

    ghost wrappable = { list_is_wrappable P.place };
}
