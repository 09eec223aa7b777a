ghost use Rattle.std.specs.Prelude.{◌≡◌};
ghost use Rattle.flit_words.specs.Words.{value_of};
ghost use Rattle.flit_list_steps.specs.Steps.{carried, hand_at, FitsLink, looks, helped_so, key_got, link_got, from_head, with_next};

use crate::inserting::{answers, key_of, link_of};
use crate::lists::List;
use flit_list_steps::{Goal, LinkWord, ListOp, Phase};
use flit_model::Reply;
use flit_place::Placement;
use flit_pv::{Exchanged, VLoad};
use flit_words::Word;

impl<P: Placement + Drop> List<P> {
    /// The row that `pred` leads to is looked at; where it leads to none, the key is absent.
    #[tactic(auto, using(flit_list_steps::specs::Phases::same_hand), unfolding(flit_list_steps::specs::Steps::looks))]
    #[inline(always)]
    pub(crate) fn looks(&self, op: &mut ListOp)
        requires { FitsLink (hand_at op.old.at) }
        ensures { op.new ≡ looks self.now.layout (P.place self.now.place) self.now.pool
            (carried op.old) (hand_at op.old.at) }
    {
        let row = link_of(op.path.pred.raw).row;
        if row == 0 {
            self.confirms(op, Goal::Absent);
        } else {
            op.at = Phase::Next(VLoad::start(self.link_word(row)));
        }
    }

    /// The head is loaded.
    #[tactic(auto, using(flit_list_steps::specs::Phases::same_hand))]
    pub(crate) fn head_got(&self, op: &mut ListOp, word: u32, raw: u64)
        requires { FitsLink (hand_at op.old.at) }
        ensures { op.new ≡ looks self.now.layout (P.place self.now.place) self.now.pool
            (record (carried op.old) { path = from_head op.old.path word raw }) (hand_at op.old.at) }
    {
        op.path.back = None;
        op.path.pred = LinkWord {
            word,
            raw,
            confirmed: false,
        };
        self.looks(op);
    }

    /// The link of the row that is looked at is loaded: the row is marked, or its key comes next.
    #[tactic(auto, using(flit_list_steps::specs::Phases::same_hand))]
    pub(crate) fn link_got(&self, op: &mut ListOp, word: u32, raw: u64)
        requires { FitsLink (hand_at op.old.at) }
        ensures { op.new ≡ link_got self.now.layout (P.place self.now.place) self.now.pool
            (record (carried op.old) { path = with_next op.old.path word raw }) (hand_at op.old.at) raw }
    {
        op.path.next = LinkWord {
            word,
            raw,
            confirmed: false,
        };
        if link_of(raw).mark {
            self.confirms(op, Goal::Help);
        } else {
            let row = link_of(op.path.pred.raw).row;
            op.at = Phase::Key(VLoad::start(self.key_word(row)));
        }
    }

    /// Its key is loaded: it is the call's, or greater, or the search goes on behind the row.
    #[tactic(auto, using(flit_list_steps::specs::Phases::same_hand))]
    pub(crate) fn key_got(&self, op: &mut ListOp, raw: u64)
        requires { FitsLink (hand_at op.old.at) }
        ensures { op.new ≡ key_got self.now.layout (P.place self.now.place) self.now.pool
            (carried op.old) (hand_at op.old.at) (value_of raw) }
    {
        let key = Word::unpack(raw).value;
        let wanted = key_of(op.call);
        if key == wanted {
            self.confirms(op, Goal::Found);
        } else if wanted < key {
            self.confirms(op, Goal::Absent);
        } else {
            // Field by field: the next load waits for `raw`, which a copy of the whole would hold up.
            let LinkWord {
                word,
                raw,
                confirmed,
            } = op.path.next;
            op.path.back = Some(op.path.pred);
            op.path.pred = LinkWord {
                word,
                raw,
                confirmed,
            };
            self.looks(op);
        }
    }

    /// A marked row is unlinked: won goes on behind it, and lost begins again.
    #[tactic(auto, using(flit_list_steps::specs::Phases::same_hand))]
    pub(crate) fn helped_so(&self, op: &mut ListOp, to: u64, how: Exchanged)
        requires { FitsLink (hand_at op.old.at) }
        ensures { op.new ≡ helped_so self.now.layout (P.place self.now.place) self.now.pool
            (carried op.old)
            to (hand_at op.old.at) how }
    {
        match how {
            Exchanged::Won => {
                op.path.pred.raw = to;
                op.path.pred.confirmed = true;
                op.hand.tally.helped = op.hand.tally.helped.saturating_add(1);
                self.looks(op);
            }
            Exchanged::Lost { .. } => self.searches(op),
            Exchanged::Worn { word, version } => answers(op, Reply::Worn { word, version }),
        }
    }
}
