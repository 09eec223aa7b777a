ghost use Rattle.std.specs.Prelude.{◌≡◌, true, IsSome};
ghost use Rattle.flit_tree.specs.Trees.{may_store_rows};
ghost use Rattle.flit_tree_steps.specs.Steps.{op_asked, op_taken, after_at, hand_at, FitsLink};

use crate::cleaning::{answers, cleaned_so};
use crate::inserting::linked_so;
use crate::trees::Tree;
use flit_model::Reply;
use flit_place::Placement;
use flit_pv::{Complete, Exchanging, Loading, Storing, VLoading};
use flit_rows::Taking;
use flit_tree_steps::{Phase, TreeOp};
use flit_words::Word;

impl<P: Placement + Drop> Tree<P> {
    /// Gives the answer of the event asked for.
    #[inline(always)]
    pub(crate) fn answered(&self, op: &mut TreeOp, answer: u64)
        requires asked { IsSome (op_asked (P.place self.now.place) op.old) }
        requires fits { may_store_rows op.old.at ≡ true → FitsLink
            (hand_at (after_at (P.place self.now.place) self.now.pool op.old.at answer)) }
        ensures { op.new ≡ op_taken self.now.layout (P.place self.now.place) self.now.pool op.old
            answer }
    {
        match &mut op.at {
            Phase::Root(load) => {
                load.take(&mut op.hand, &self.place, answer);
                let word = load.word;
                if let Loading::Has { raw } = load.at {
                    self.root_got(op, word, raw);
                }
            }
            Phase::Key(load) => {
                load.take(&mut op.hand, &self.place, answer);
                if let Loading::Has { raw } = load.at {
                    self.key_got(op, raw);
                }
            }
            Phase::Edge(load) => {
                load.take(&mut op.hand, &self.place, answer);
                let word = load.word;
                if let Loading::Has { raw } = load.at {
                    self.edge_got(op, word, raw);
                }
            }
            Phase::Rows(take) => {
                take.take(&mut op.hand, &self.pool, answer);
                if let Taking::Ended(took) = take.at {
                    self.rows_so(op, took);
                }
            }
            Phase::LeafWords => {
                op.store.take(&mut op.hand, answer);
                if let Storing::Ended(how) = op.store.at {
                    self.leaf_so(op, how);
                }
            }
            Phase::LeafValue => {
                op.store.take(&mut op.hand, answer);
                if let Storing::Ended(how) = op.store.at {
                    self.leaf_value_so(op, how);
                }
            }
            Phase::InnerWords => {
                op.store.take(&mut op.hand, answer);
                if let Storing::Ended(how) = op.store.at {
                    self.inner_so(op, how);
                }
            }
            Phase::Link(link) => {
                link.take(&mut op.hand, &self.place, answer);
                if let Exchanging::Ended(how) = link.at {
                    linked_so(op, how);
                }
            }
            Phase::Flag(flag) => {
                flag.take(&mut op.hand, &self.place, answer);
                let to = flag.to;
                if let Exchanging::Ended(how) = flag.at {
                    self.flagged_so(op, to, how);
                }
            }
            Phase::Sibling { clean_up, load } => {
                load.take(&mut op.hand, &self.place, answer);
                let clean_up = *clean_up;
                let word = load.word;
                if let Loading::Has { raw } = load.at {
                    self.sibling_got(op, clean_up, word, raw);
                }
            }
            Phase::Freeze { clean_up, freeze } => {
                freeze.take(&mut op.hand, &self.place, answer);
                let clean_up = *clean_up;
                let to = freeze.to;
                if let Exchanging::Ended(how) = freeze.at {
                    self.frozen_so(op, clean_up, to, how);
                }
            }
            Phase::Swing { clean_up, swing } => {
                swing.take(&mut op.hand, &self.place, answer);
                let clean_up = *clean_up;
                if let Exchanging::Ended(how) = swing.at {
                    cleaned_so(op, clean_up, how);
                }
            }
            Phase::Value(load) => {
                load.take(&op.hand, answer);
                if let VLoading::Has { raw } = load.at {
                    let value = Word::unpack(raw).value;
                    answers(op, Reply::Found { value });
                }
            }
            Phase::Ends => Complete.take(&mut op.hand, answer),
            Phase::Rests => {}
        }
    }
}
