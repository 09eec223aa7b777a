ghost use Rattle.std.specs.Prelude.{◌≡◌};
ghost use Rattle.flit_tree_steps.specs.Steps.{carried, hand_at, answers, seeks, cleaned_so, swings, frozen_so, freezes, sibling_got, cleans, flagged_so, flags, with_sibling};

use crate::edges::{frozen_link, link_of, other_word, thawed_link, to_row_flagged};
use crate::trees::Tree;
use flit_model::Reply;
use flit_place::Placement;
use flit_pv::{Exchanged, Exchanging, PExchange, PLoad};
use flit_tree_steps::{CleanUp, EdgeWord, Phase, TreeOp};

/// The left edge of row 2, from which the tree hangs.
pub(crate) const ROOT_WORD: u32 = 4;

/// The call has this reply once all that is queued is written back.
#[tactic(auto, using(flit_tree_steps::specs::Phases::same_hand))]
pub(crate) fn answers(op: &mut TreeOp, reply: Reply)
    ensures { op.new ≡ answers (carried op.old) (hand_at op.old.at) reply }
{
    op.reply = reply;
    op.at = Phase::Ends;
}

/// A seek begins with the load of the edge that the tree hangs from.
#[tactic(auto, using(flit_tree_steps::specs::Phases::same_hand))]
pub(crate) fn seeks(op: &mut TreeOp)
    ensures { op.new ≡ seeks (carried op.old) (hand_at op.old.at) }
{
    op.hand.tally.tries = op.hand.tally.tries.saturating_add(1);
    op.at = Phase::Root(PLoad::start(ROOT_WORD));
}

/// A clean-up has ended so.
#[tactic(auto, using(flit_tree_steps::specs::Phases::same_hand))]
pub(crate) fn cleaned_so(op: &mut TreeOp, clean_up: CleanUp, how: Exchanged)
    ensures { op.new ≡ cleaned_so clean_up (carried op.old) (hand_at op.old.at) how }
{
    match clean_up {
        CleanUp::Own => answers(op, Reply::Yes),
        CleanUp::Help => match how {
            Exchanged::Won => {
                op.hand.tally.helped = op.hand.tally.helped.saturating_add(1);
                seeks(op);
            }
            Exchanged::Lost { .. } => seeks(op),
            Exchanged::Worn { word, version } => answers(op, Reply::Worn { word, version }),
        },
    }
}

impl<P: Placement + Drop> Tree<P> {
    /// The ancestor's edge is swung to the row that the sibling leads to.
    #[tactic(auto, using(flit_tree_steps::specs::Phases::same_hand), unfolding(flit_tree_steps::specs::Steps::swings))]
    fn swings(&self, op: &mut TreeOp, clean_up: CleanUp)
        ensures { op.new ≡ swings self.now.layout clean_up (carried op.old) (hand_at op.old.at) }
    {
        let ancestor = op.path.ancestor;
        let to = thawed_link(op.path.sibling.raw);
        let swing = PExchange::start(ancestor.word, ancestor.raw, to, self.layout.limit);
        match swing.at {
            Exchanging::Ended(how) => cleaned_so(op, clean_up, how),
            _ => op.at = Phase::Swing { clean_up, swing },
        }
    }

    /// The sibling's freeze has ended so: won goes on to the swing, and else the clean-up ends.
    #[tactic(auto, using(flit_tree_steps::specs::Phases::same_hand))]
    pub(crate) fn frozen_so(&self, op: &mut TreeOp, clean_up: CleanUp, to: u64, how: Exchanged)
        ensures { op.new ≡ frozen_so self.now.layout clean_up (carried op.old) to
            (hand_at op.old.at) how }
    {
        match how {
            Exchanged::Won => {
                op.path.sibling.raw = to;
                self.swings(op, clean_up);
            }
            Exchanged::Lost { .. } => cleaned_so(op, clean_up, how),
            Exchanged::Worn { .. } => cleaned_so(op, clean_up, how),
        }
    }

    /// The sibling is frozen.
    #[tactic(auto, using(flit_tree_steps::specs::Phases::same_hand))]
    fn freezes(&self, op: &mut TreeOp, clean_up: CleanUp)
        ensures { op.new ≡ freezes self.now.layout clean_up (carried op.old) (hand_at op.old.at) }
    {
        let sibling = op.path.sibling;
        let to = frozen_link(sibling.raw);
        let freeze = PExchange::start(sibling.word, sibling.raw, to, self.layout.limit);
        match freeze.at {
            Exchanging::Ended(how) => {
                let to = freeze.to;
                self.frozen_so(op, clean_up, to, how);
            }
            _ => op.at = Phase::Freeze { clean_up, freeze },
        }
    }

    /// The sibling is loaded: it is frozen, or has to be.
    #[tactic(auto, using(flit_tree_steps::specs::Phases::same_hand), unfolding(flit_tree_steps::specs::Steps::sibling_got))]
    pub(crate) fn sibling_got(&self, op: &mut TreeOp, clean_up: CleanUp, word: u32, raw: u64)
        ensures { op.new ≡ sibling_got self.now.layout clean_up
            (record (carried op.old) { path = with_sibling op.old.path word raw })
            (hand_at op.old.at) }
    {
        op.path.sibling = EdgeWord { word, raw };
        if link_of(raw).frozen {
            self.swings(op, clean_up);
        } else {
            self.freezes(op, clean_up);
        }
    }

    /// The edge is flagged, or frozen: behind a flag the sibling comes next, and a frozen edge without a flag is the
    /// sibling itself, whose leaf stays.
    #[tactic(auto, using(flit_tree_steps::specs::Phases::same_hand), unfolding(flit_tree_steps::specs::Steps::cleans))]
    pub(crate) fn cleans(&self, op: &mut TreeOp, clean_up: CleanUp)
        ensures { op.new ≡ cleans self.now.layout clean_up (carried op.old) (hand_at op.old.at) }
    {
        let edge = op.path.edge;
        if link_of(edge.raw).mark {
            let load = PLoad::start(other_word(edge.word));
            op.at = Phase::Sibling { clean_up, load };
        } else {
            op.path.sibling = edge;
            self.swings(op, clean_up);
        }
    }

    /// The edge to a remove's leaf is flagged so: won is the removal, and lost begins again.
    #[tactic(auto, using(flit_tree_steps::specs::Phases::same_hand))]
    pub(crate) fn flagged_so(&self, op: &mut TreeOp, to: u64, how: Exchanged)
        ensures { op.new ≡ flagged_so self.now.layout (carried op.old) to (hand_at op.old.at) how }
    {
        match how {
            Exchanged::Won => {
                op.path.edge.raw = to;
                self.cleans(op, CleanUp::Own);
            }
            Exchanged::Lost { .. } => seeks(op),
            Exchanged::Worn { word, version } => answers(op, Reply::Worn { word, version }),
        }
    }

    /// The edge to the leaf is flagged.
    #[tactic(auto, using(flit_tree_steps::specs::Phases::same_hand))]
    pub(crate) fn flags(&self, op: &mut TreeOp)
        ensures { op.new ≡ flags self.now.layout (carried op.old) (hand_at op.old.at) }
    {
        let edge = op.path.edge;
        let to = to_row_flagged(link_of(edge.raw).row);
        let flag = PExchange::start(edge.word, edge.raw, to, self.layout.limit);
        match flag.at {
            Exchanging::Ended(how) => {
                let to = flag.to;
                self.flagged_so(op, to, how);
            }
            _ => op.at = Phase::Flag(flag),
        }
    }
}
