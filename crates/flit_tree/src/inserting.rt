ghost use Rattle.std.specs.Prelude.{◌≡◌, ◌<◌, ◌^◌};
ghost use Rattle.flit_tree_steps.specs.Steps.{carried, hand_at, with_rows_used, answers, linked_so, links, inner_so, stores_inner, leaf_value_so, stores_value, leaf_so, stores_leaf, rows_so, takes_rows, FitsLink};
ghost use Rattle.flit_structure.specs.Meanings.{key_of, value_put};

use crate::cleaning::{answers, seeks};
use crate::edges::{link_of, to_row};
use crate::trees::Tree;
use arrayvec::ArrayVec;
use flit_model::{Call, Reply};
use flit_place::Placement;
use flit_pv::{Exchanged, Exchanging, PExchange, PrivateStore, Stored, Storing};
use flit_rows::{TakeRow, Taking, Took};
use flit_tree_steps::{Phase, TreeOp};

/// The key of a call.
pub(crate) fn key_of(call: Call) -> u32
    ensures { result ≡ key_of call }
{
    match call {
        Call::Insert(key, _) => key,
        Call::Remove(key) => key,
        Call::Contains(key) => key,
        Call::Get(key) => key,
    }
}

/// The value that a call puts in.
fn value_put(call: Call) -> u32
    ensures { result ≡ value_put call }
{
    match call {
        Call::Insert(_, value) => value,
        _ => 0,
    }
}

/// An insert's rows are used where they are linked.
#[tactic(auto, using(flit_tree_steps::specs::Phases::same_hand))]
fn answers_linked(op: &mut TreeOp)
    ensures { op.new ≡ answers (carried op.old) (with_rows_used (hand_at op.old.at)) Reply.Yes }
{
    op.hand.spare = [0, 0];
    op.reply = Reply::Yes;
    op.at = Phase::Ends;
}

/// The edge is linked to the inner row so: won is the insertion, and lost begins again.
pub(crate) fn linked_so(op: &mut TreeOp, how: Exchanged)
    ensures { op.new ≡ linked_so (carried op.old) (hand_at op.old.at) how }
{
    match how {
        Exchanged::Won => answers_linked(op),
        Exchanged::Lost { .. } => seeks(op),
        Exchanged::Worn { word, version } => answers(op, Reply::Worn { word, version }),
    }
}

impl<P: Placement + Drop> Tree<P> {
    /// The edge to the old leaf is linked to the inner row.
    #[tactic(auto, using(flit_tree_steps::specs::Phases::same_hand))]
    fn links(&self, op: &mut TreeOp)
        requires { FitsLink (hand_at op.old.at) }
        ensures { op.new ≡ links self.now.layout (carried op.old) (hand_at op.old.at) }
    {
        let edge = op.path.edge;
        let to = to_row(op.hand.spare[1]);
        let link = PExchange::start(edge.word, edge.raw, to, self.layout.limit);
        match link.at {
            Exchanging::Ended(how) => linked_so(op, how),
            _ => op.at = Phase::Link(link),
        }
    }

    /// The inner row's words are stored so.
    pub(crate) fn inner_so(&self, op: &mut TreeOp, how: Stored)
        requires { FitsLink (hand_at op.old.at) }
        ensures { op.new ≡ inner_so self.now.layout (carried op.old) (hand_at op.old.at) how }
    {
        match how {
            Stored::Stored => self.links(op),
            Stored::Worn { word, version } => answers(op, Reply::Worn { word, version }),
        }
    }

    /// The inner row's words are stored: its key is the greater one, and the leaf with the smaller key is on its left.
    #[tactic(auto, using(flit_tree_steps::specs::Phases::same_hand), unfolding(flit_tree_steps::specs::Steps::stores_inner))]
    fn stores_inner(&self, op: &mut TreeOp)
        requires { FitsLink (hand_at op.old.at) }
        ensures { op.new ≡ stores_inner self.now.layout (carried op.old) (hand_at op.old.at) }
    {
        let key = key_of(op.call);
        let old_key = op.path.key;
        let leaf = to_row(op.hand.spare[0]);
        let old = to_row(link_of(op.path.edge.raw).row);
        let mut values = ArrayVec::new();
        values.push(if key < old_key { old_key } else { key });
        values.push(if key < old_key { leaf } else { old });
        values.push(if key < old_key { old } else { leaf });
        let word = self.key_word(op.hand.spare[1]);
        let store = PrivateStore::start(word, values, self.layout.limit);
        match store.at {
            Storing::Ended(how) => self.inner_so(op, how),
            _ => {
                op.store = store;
                op.at = Phase::InnerWords;
            }
        }
    }

    /// The leaf's value is stored so.
    pub(crate) fn leaf_value_so(&self, op: &mut TreeOp, how: Stored)
        requires { FitsLink (hand_at op.old.at) }
        ensures { op.new ≡ leaf_value_so self.now.layout (carried op.old) (hand_at op.old.at) how }
    {
        match how {
            Stored::Stored => self.stores_inner(op),
            Stored::Worn { word, version } => answers(op, Reply::Worn { word, version }),
        }
    }

    /// The leaf's value is stored.
    #[tactic(auto, using(flit_tree_steps::specs::Phases::same_hand))]
    fn stores_value(&self, op: &mut TreeOp)
        requires { FitsLink (hand_at op.old.at) }
        ensures { op.new ≡ stores_value self.now.layout (carried op.old) (hand_at op.old.at) }
    {
        let mut values = ArrayVec::new();
        values.push(value_put(op.call));
        let word = self.value_word(op.hand.spare[0]);
        let store = PrivateStore::start(word, values, self.layout.limit);
        match store.at {
            Storing::Ended(how) => self.leaf_value_so(op, how),
            _ => {
                op.store = store;
                op.at = Phase::LeafValue;
            }
        }
    }

    /// The leaf's key and edges are stored so; with values, its value comes next.
    #[tactic(auto, unfolding(flit_tree_steps::specs::Steps::leaf_so))]
    pub(crate) fn leaf_so(&self, op: &mut TreeOp, how: Stored)
        requires { FitsLink (hand_at op.old.at) }
        ensures { op.new ≡ leaf_so self.now.layout (carried op.old) (hand_at op.old.at) how }
    {
        match how {
            Stored::Stored if self.layout.values => self.stores_value(op),
            Stored::Stored => self.stores_inner(op),
            Stored::Worn { word, version } => answers(op, Reply::Worn { word, version }),
        }
    }

    /// The leaf's key and edges are stored.
    #[tactic(auto, using(flit_tree_steps::specs::Phases::same_hand))]
    fn stores_leaf(&self, op: &mut TreeOp)
        requires { FitsLink (hand_at op.old.at) }
        ensures { op.new ≡ stores_leaf self.now.layout (carried op.old) (hand_at op.old.at) }
    {
        let mut values = ArrayVec::new();
        values.push(key_of(op.call));
        values.push(0);
        values.push(0);
        let word = self.key_word(op.hand.spare[0]);
        let store = PrivateStore::start(word, values, self.layout.limit);
        match store.at {
            Storing::Ended(how) => self.leaf_so(op, how),
            _ => {
                op.store = store;
                op.at = Phase::LeafWords;
            }
        }
    }

    /// The rows are taken so.
    pub(crate) fn rows_so(&self, op: &mut TreeOp, took: Took)
        requires { FitsLink (hand_at op.old.at) }
        ensures { op.new ≡ rows_so self.now.layout (carried op.old) (hand_at op.old.at) took }
    {
        match took {
            Took::Taken => self.stores_leaf(op),
            Took::None { ticket } => answers(op, Reply::Full { ticket }),
        }
    }

    /// Rows are taken up to two, one for the leaf and one for the inner row.
    #[tactic(auto, using(flit_tree_steps::specs::Phases::same_hand))]
    pub(crate) fn takes_rows(&self, op: &mut TreeOp)
        requires { FitsLink (hand_at op.old.at) }
        ensures { op.new ≡ takes_rows self.now.layout self.now.pool (carried op.old) (hand_at op.old.at) }
    {
        let take = TakeRow::start(&op.hand, 2, &self.pool);
        match take.at {
            Taking::Ended(took) => self.rows_so(op, took),
            Taking::Draws => op.at = Phase::Rows(take),
        }
    }
}
