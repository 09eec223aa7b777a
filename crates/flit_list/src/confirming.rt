ghost use Rattle.std.specs.Prelude.{◌≡◌};
ghost use Rattle.flit_list_steps.specs.Steps.{carried, hand_at, FitsLink, helps, reached, wants_next, next_confirmed, confirms_next, pred_confirmed, confirms_pred, back_is_confirmed, confirms, confirmed};

use crate::inserting::{answers, unlinking};
use crate::lists::List;
use flit_list_steps::{Goal, ListOp, Phase, Which};
use flit_model::Reply;
use flit_place::Placement;
use flit_pv::{Confirm, Exchanged, Exchanging};

/// Whether the link word of the row that is looked at is confirmed, too.
fn wants_next(goal: Goal) -> bool
    ensures { result ≡ wants_next goal }
{
    goal != Goal::Absent
}

impl<P: Placement + Drop> List<P> {
    /// The marked row that is looked at is unlinked.
    #[tactic(auto, using(flit_list_steps::specs::Phases::same_hand))]
    fn helps(&self, op: &mut ListOp)
        ensures { op.new ≡ helps self.now.layout (carried op.old) (hand_at op.old.at) }
    {
        let help = unlinking(&op.path, self.layout.limit);
        match help.at {
            Exchanging::Ended(Exchanged::Worn { word, version }) => {
                answers(op, Reply::Worn { word, version });
            }
            _ => op.at = Phase::Help(help),
        }
    }

    /// All words of the path that it has to rely on are confirmed.
    #[tactic(auto, unfolding(flit_list_steps::specs::Steps::reached))]
    fn reached(&self, op: &mut ListOp, goal: Goal)
        requires { FitsLink (hand_at op.old.at) }
        ensures { op.new ≡ reached self.now.layout self.now.pool
            (carried op.old) (hand_at op.old.at) goal }
    {
        match goal {
            Goal::Help => self.helps(op),
            Goal::Found => self.found(op),
            Goal::Absent => self.absent(op),
        }
    }

    /// `next` is confirmed.
    #[tactic(auto, using(flit_list_steps::specs::Phases::same_hand))]
    fn next_confirmed(&self, op: &mut ListOp, goal: Goal)
        requires { FitsLink (hand_at op.old.at) }
        ensures { op.new ≡ next_confirmed self.now.layout self.now.pool (carried op.old)
            (hand_at op.old.at) goal }
    {
        op.path.next.confirmed = true;
        self.reached(op, goal);
    }

    #[tactic(auto, using(flit_list_steps::specs::Phases::same_hand, flit_list_steps::specs::Phases::left_fits), unfolding(flit_list_steps::specs::Steps::confirms_next))]
    fn confirms_next(&self, op: &mut ListOp, goal: Goal)
        requires { FitsLink (hand_at op.old.at) }
        ensures { op.new ≡ confirms_next self.now.layout (P.place self.now.place) self.now.pool
            (carried op.old) (hand_at op.old.at) goal }
    {
        let next = op.path.next;
        if wants_next(goal) && !next.confirmed {
            let confirm = Confirm::start(next.word, next.raw);
            if confirm.ask(&op.hand, &self.place).is_none() {
                confirm.end(&mut op.hand);
                self.next_confirmed(op, goal);
            } else {
                op.at = Phase::Confirming {
                    goal,
                    which: Which::Next,
                    confirm,
                };
            }
        } else {
            self.reached(op, goal);
        }
    }

    /// `pred` is confirmed.
    #[tactic(auto, using(flit_list_steps::specs::Phases::same_hand))]
    fn pred_confirmed(&self, op: &mut ListOp, goal: Goal)
        requires { FitsLink (hand_at op.old.at) }
        ensures { op.new ≡ pred_confirmed self.now.layout (P.place self.now.place) self.now.pool
            (carried op.old) (hand_at op.old.at) goal }
    {
        op.path.pred.confirmed = true;
        self.confirms_next(op, goal);
    }

    #[tactic(auto, using(flit_list_steps::specs::Phases::same_hand, flit_list_steps::specs::Phases::left_fits), unfolding(flit_list_steps::specs::Steps::confirms_pred))]
    fn confirms_pred(&self, op: &mut ListOp, goal: Goal)
        requires { FitsLink (hand_at op.old.at) }
        ensures { op.new ≡ confirms_pred self.now.layout (P.place self.now.place) self.now.pool
            (carried op.old) (hand_at op.old.at) goal }
    {
        let pred = op.path.pred;
        if pred.confirmed {
            self.confirms_next(op, goal);
        } else {
            let confirm = Confirm::start(pred.word, pred.raw);
            if confirm.ask(&op.hand, &self.place).is_none() {
                confirm.end(&mut op.hand);
                self.pred_confirmed(op, goal);
            } else {
                op.at = Phase::Confirming {
                    goal,
                    which: Which::Pred,
                    confirm,
                };
            }
        }
    }

    /// `back` is confirmed.
    #[tactic(auto, using(flit_list_steps::specs::Phases::same_hand))]
    fn back_is_confirmed(&self, op: &mut ListOp, goal: Goal)
        requires { FitsLink (hand_at op.old.at) }
        ensures { op.new ≡ back_is_confirmed self.now.layout (P.place self.now.place) self.now.pool
            (carried op.old) (hand_at op.old.at) goal }
    {
        if let Some(back) = &mut op.path.back {
            back.confirmed = true;
        }
        self.confirms_pred(op, goal);
    }

    /// The words of the path are confirmed, each where it wasn't; then the search goes on to its goal.
    #[tactic(auto, using(flit_list_steps::specs::Phases::same_hand, flit_list_steps::specs::Phases::left_fits), unfolding(flit_list_steps::specs::Steps::confirms))]
    pub(crate) fn confirms(&self, op: &mut ListOp, goal: Goal)
        requires { FitsLink (hand_at op.old.at) }
        ensures { op.new ≡ confirms self.now.layout (P.place self.now.place) self.now.pool
            (carried op.old) (hand_at op.old.at) goal }
    {
        match op.path.back {
            Some(back) if !back.confirmed => {
                let confirm = Confirm::start(back.word, back.raw);
                if confirm.ask(&op.hand, &self.place).is_none() {
                    confirm.end(&mut op.hand);
                    self.back_is_confirmed(op, goal);
                } else {
                    op.at = Phase::Confirming {
                        goal,
                        which: Which::Back,
                        confirm,
                    };
                }
            }
            _ => self.confirms_pred(op, goal),
        }
    }

    /// One word of the path is confirmed, and the others are next.
    pub(crate) fn confirmed(&self, op: &mut ListOp, goal: Goal, which: Which)
        requires { FitsLink (hand_at op.old.at) }
        ensures { op.new ≡ confirmed self.now.layout (P.place self.now.place) self.now.pool
            (carried op.old) (hand_at op.old.at) goal which }
    {
        match which {
            Which::Back => self.back_is_confirmed(op, goal),
            Which::Pred => self.pred_confirmed(op, goal),
            Which::Next => self.next_confirmed(op, goal),
        }
    }
}
