ghost use Rattle.std.specs.Prelude.{◌≡◌};
ghost use Rattle.flit_words.specs.Layouts.{value_word_of};
ghost use Rattle.flit_words.specs.Words.{value_of};
ghost use Rattle.flit_pv.specs.VLoads.{v_load_started};
ghost use Rattle.flit_tree_steps.specs.Steps.{carried, hand_at, row_at, value_next, found, absent, sought, edge_got, key_got, root_got, FitsLink};

use crate::cleaning::answers;
use crate::edges::{is_plain, link_of};
use crate::inserting::key_of;
use crate::trees::Tree;
use flit_model::{Call, Reply};
use flit_place::Placement;
use flit_pv::{PLoad, VLoad};
use flit_tree_steps::{CleanUp, EdgeWord, Phase, TreeOp};
use flit_words::Word;

impl<P: Placement + Drop> Tree<P> {
    #[tactic(auto, using(flit_tree_steps::specs::Phases::same_hand))]
    fn loads_value(&self, op: &mut TreeOp)
        ensures { op.new ≡ value_next (carried op.old) (v_load_started (hand_at op.old.at)
            (value_word_of self.now.layout (row_at op.old.path))) }
    {
        let word = self.value_word(link_of(op.path.edge.raw).row);
        op.at = Phase::Value(VLoad::start(word));
    }

    /// The seek's leaf has the call's key.
    fn found(&self, op: &mut TreeOp)
        ensures { op.new ≡ found self.now.layout (carried op.old) (hand_at op.old.at) op.old.call }
    {
        match op.call {
            Call::Insert(_, _) => answers(op, Reply::No),
            Call::Remove(_) => self.flags(op),
            Call::Contains(_) => answers(op, Reply::Yes),
            Call::Get(_) if self.layout.values => self.loads_value(op),
            Call::Get(_) => answers(op, Reply::Found { value: 0 }),
        }
    }

    /// The seek's leaf has another key.
    fn absent(&self, op: &mut TreeOp)
        requires { FitsLink (hand_at op.old.at) }
        ensures { op.new ≡ absent self.now.layout self.now.pool (carried op.old) (hand_at op.old.at)
            op.old.call }
    {
        match op.call {
            Call::Insert(_, _) => self.takes_rows(op),
            _ => answers(op, Reply::No),
        }
    }

    /// The seek has come to a leaf. Where the edge to it is flagged or frozen, a clean-up comes before it begins again.
    #[tactic(auto, unfolding(flit_tree_steps::specs::Steps::sought))]
    fn sought(&self, op: &mut TreeOp)
        requires { FitsLink (hand_at op.old.at) }
        ensures { op.new ≡ sought self.now.layout self.now.pool (carried op.old) (hand_at op.old.at) }
    {
        if !is_plain(op.path.edge.raw) {
            self.cleans(op, CleanUp::Help);
        } else if op.path.key == key_of(op.call) {
            self.found(op);
        } else {
            self.absent(op);
        }
    }

    /// The edge below is loaded: it leads to a row, or the row that is looked at is a leaf.
    #[tactic(auto, using(flit_tree_steps::specs::Phases::same_hand), unfolding(flit_tree_steps::specs::Steps::edge_got))]
    pub(crate) fn edge_got(&self, op: &mut TreeOp, word: u32, raw: u64)
        requires { FitsLink (hand_at op.old.at) }
        ensures { op.new ≡ edge_got self.now.layout self.now.pool (carried op.old) (hand_at op.old.at) word raw }
    {
        let row = link_of(raw).row;
        if row == 0 {
            self.sought(op);
        } else {
            if !link_of(op.path.edge.raw).frozen {
                op.path.ancestor = op.path.edge;
            }
            op.path.edge = EdgeWord { word, raw };
            op.at = Phase::Key(PLoad::start(self.key_word(row)));
        }
    }

    /// The row's key is loaded: its edge on the side of the call's key comes next.
    #[tactic(auto, using(flit_tree_steps::specs::Phases::same_hand))]
    pub(crate) fn key_got(&self, op: &mut TreeOp, raw: u64)
        ensures { op.new ≡ key_got self.now.layout (carried op.old) (hand_at op.old.at)
            (value_of raw) }
    {
        let key = Word::unpack(raw).value;
        let row = link_of(op.path.edge.raw).row;
        op.path.key = key;
        op.at = Phase::Edge(PLoad::start(self.side_word(key_of(op.call), key, row)));
    }

    /// The first edge is loaded.
    #[tactic(auto, using(flit_tree_steps::specs::Phases::same_hand))]
    pub(crate) fn root_got(&self, op: &mut TreeOp, word: u32, raw: u64)
        ensures { op.new ≡ root_got self.now.layout (carried op.old) (hand_at op.old.at) word raw }
    {
        let edge = EdgeWord { word, raw };
        op.path.ancestor = edge;
        op.path.edge = edge;
        op.at = Phase::Key(PLoad::start(self.key_word(link_of(raw).row)));
    }
}
