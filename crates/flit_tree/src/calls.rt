ghost use Rattle.std.specs.Prelude.{◌≡◌, is_none};
ghost use Rattle.flit_pv.specs.Exchanges.{exchange_of};
ghost use Rattle.flit_tree_steps.specs.Steps.{op_asked, exchanges_now};

use crate::cleaning::ROOT_WORD;
use crate::trees::Tree;
use arrayvec::ArrayVec;
use flit_model::{Call, Event, Reply, Tally};
use flit_place::Placement;
use flit_pv::{Complete, Exchanging, Hand, PExchange, PLoad, PrivateStore};
use flit_structure::Structure;
use flit_tree_steps::{EdgeWord, Path, Phase, TreeOp};
use flit_words::Layout;

const NO_WORD: EdgeWord = EdgeWord { word: 0, raw: 0 };

const NO_PATH: Path = Path {
    ancestor: NO_WORD,
    edge: NO_WORD,
    key: 0,
    sibling: NO_WORD,
};

/// Whether its Exchange comes next, or without a slot its second try.
fn exchanges_now<P: Placement>(hand: &Hand, place: &P, link: &PExchange) -> bool
    ensures { result ≡ exchanges_now (P.place place.now) link.now.at
        (exchange_of hand.now link.now) }
{
    match link.at {
        Exchanging::Ready => hand.queue.is_empty() && place.slot_of(link.word).is_none(),
        Exchanging::Tries { .. } | Exchanging::TriesBare => true,
        Exchanging::WritesBack
        | Exchanging::Withdraws
        | Exchanging::Lowers { .. }
        | Exchanging::Ended(_) => false,
    }
}

impl<P: Placement + Drop> Tree<P> {
    /// Whether no event comes any more: one look at the phase, and no event is made for it.
    fn rests(&self, op: &TreeOp) -> bool
        ensures { result ≡ is_none (op_asked (P.place self.now.place) op.now) }
    {
        match &op.at {
            Phase::Root(load) => load.loaded().is_some(),
            Phase::Key(load) => load.loaded().is_some(),
            Phase::Edge(load) => load.loaded().is_some(),
            Phase::Rows(take) => take.ended().is_some(),
            Phase::LeafWords => op.store.ended().is_some(),
            Phase::LeafValue => op.store.ended().is_some(),
            Phase::InnerWords => op.store.ended().is_some(),
            Phase::Link(link) => link.ended().is_some(),
            Phase::Flag(flag) => flag.ended().is_some(),
            Phase::Sibling { load, .. } => load.loaded().is_some(),
            Phase::Freeze { freeze, .. } => freeze.ended().is_some(),
            Phase::Swing { swing, .. } => swing.ended().is_some(),
            Phase::Value(load) => load.loaded().is_some(),
            Phase::Ends => op.hand.queue.is_empty(),
            Phase::Rests => true,
        }
    }
}

impl<P: Placement + Drop> Structure for Tree<P> {
    ghost use Rattle.flit_tree.specs.Trees.{tree_of, tree_is_lawful, tree_is_wrappable};

    type Op = TreeOp;

    ghost meaning = { tree_of P.place };

    fn layout(&self) -> &Layout {
        &self.layout
    }

    fn start(&self, mut hand: Hand, call: Call) -> TreeOp {
        hand.number += 1;
        hand.tally.tries = hand.tally.tries.saturating_add(1);
        TreeOp {
            call,
            reply: Reply::No,
            hand,
            path: NO_PATH,
            store: PrivateStore::start(0, ArrayVec::new(), 0),
            at: Phase::Root(PLoad::start(ROOT_WORD)),
        }
    }

    #[tactic(auto, using(flit_tree_steps::specs::Phases::same_hand))]
    fn start_again(&self, op: &mut TreeOp, call: Call) {
        op.hand.number += 1;
        op.hand.tally.tries = op.hand.tally.tries.saturating_add(1);
        op.call = call;
        op.reply = Reply::No;
        op.path = NO_PATH;
        op.at = Phase::Root(PLoad::start(ROOT_WORD));
    }

    #[inline(always)]
    fn ask(&self, op: &TreeOp) -> Option<Event> {
        match &op.at {
            Phase::Root(load) => load.ask(&op.hand, &self.place),
            Phase::Key(load) => load.ask(&op.hand, &self.place),
            Phase::Edge(load) => load.ask(&op.hand, &self.place),
            Phase::Rows(take) => take.ask(&op.hand),
            Phase::LeafWords => op.store.ask(&op.hand),
            Phase::LeafValue => op.store.ask(&op.hand),
            Phase::InnerWords => op.store.ask(&op.hand),
            Phase::Link(link) => link.ask(&op.hand, &self.place),
            Phase::Flag(flag) => flag.ask(&op.hand, &self.place),
            Phase::Sibling { load, .. } => load.ask(&op.hand, &self.place),
            Phase::Freeze { freeze, .. } => freeze.ask(&op.hand, &self.place),
            Phase::Swing { swing, .. } => swing.ask(&op.hand, &self.place),
            Phase::Value(load) => load.ask(&op.hand),
            Phase::Ends => Complete.ask(&op.hand),
            Phase::Rests => None,
        }
    }

    #[inline(always)]
    fn take(&self, op: &mut TreeOp, answer: u64) {
        self.answered(op, answer);
    }

    fn takes_effect(&self, op: &TreeOp) -> bool {
        match &op.at {
            Phase::Link(link) => exchanges_now(&op.hand, &self.place, link),
            Phase::Flag(flag) => exchanges_now(&op.hand, &self.place, flag),
            _ => false,
        }
    }

    fn reply(&self, op: &TreeOp) -> Option<Reply> {
        if self.rests(op) { Some(op.reply) } else { None }
    }

    #[tactic(auto, using(flit_tree_steps::specs::Phases::same_hand))]
    fn tally(&self, op: &TreeOp) -> Tally {
        op.hand.tally
    }

    #[tactic(auto, using(flit_tree_steps::specs::Phases::same_hand))]
    fn finish(&self, op: TreeOp) -> Hand {
        op.hand
    }

    ghost lawful = { tree_is_lawful P.place };

    ghost wrappable = { tree_is_wrappable P.place };
}
