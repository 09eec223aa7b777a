ghost use Rattle.std.specs.Prelude.{◌≡◌, true, IsSome};
ghost use Rattle.flit_list.specs.Lists.{may_write_link};
ghost use Rattle.flit_list_steps.specs.Steps.{op_asked, op_taken, after_at, hand_at, FitsLink};

use crate::inserting::answers;
use crate::lists::List;
use flit_list_steps::{ListOp, Phase};
use flit_model::Reply;
use flit_place::Placement;
use flit_pv::{Complete, Exchanging, Storing, VLoading};
use flit_rows::Taking;
use flit_words::Word;

impl<P: Placement + Drop> List<P> {
    /// Gives the answer of the event asked for.
    #[inline(always)]
    pub(crate) fn answered(&self, op: &mut ListOp, answer: u64)
        requires asked { IsSome (op_asked (P.place self.now.place) op.old) }
        requires fits { may_write_link op.old.at ≡ true → FitsLink
            (hand_at (after_at (P.place self.now.place) self.now.pool op.old.at answer)) }
        ensures { op.new ≡ op_taken self.now.layout (P.place self.now.place) self.now.pool op.old
            answer }
    {
        // Nearly all answers are to a search's loads of links and keys, so these come before the table of phases.
        if let Phase::Next(load) = &op.at {
            let word = load.word;
            self.link_got(op, word, answer);
            return;
        }
        if let Phase::Key(_) = &op.at {
            self.key_got(op, answer);
            return;
        }
        match &mut op.at {
            Phase::Head(load) => {
                load.take(&op.hand, answer);
                let word = load.word;
                if let VLoading::Has { raw } = load.at {
                    self.head_got(op, word, raw);
                }
            }
            Phase::Next(load) => {
                load.take(&op.hand, answer);
                let word = load.word;
                if let VLoading::Has { raw } = load.at {
                    self.link_got(op, word, raw);
                }
            }
            Phase::Key(load) => {
                load.take(&op.hand, answer);
                if let VLoading::Has { raw } = load.at {
                    self.key_got(op, raw);
                }
            }
            Phase::Confirming {
                goal,
                which,
                confirm,
            } => {
                confirm.take(&mut op.hand, &self.place, answer);
                let (goal, which) = (*goal, *which);
                if confirm.ask(&op.hand, &self.place).is_none() {
                    self.confirmed(op, goal, which);
                }
            }
            Phase::Help(help) => {
                help.take(&mut op.hand, &self.place, answer);
                let to = help.to;
                if let Exchanging::Ended(how) = help.at {
                    self.helped_so(op, to, how);
                }
            }
            Phase::Row(take) => {
                take.take(&mut op.hand, &self.pool, answer);
                if let Taking::Ended(took) = take.at {
                    self.row_so(op, took);
                }
            }
            Phase::Words => {
                op.store.take(&mut op.hand, answer);
                if let Storing::Ended(how) = op.store.at {
                    self.words_so(op, how);
                }
            }
            Phase::RowValue => {
                op.store.take(&mut op.hand, answer);
                if let Storing::Ended(how) = op.store.at {
                    self.row_value_so(op, how);
                }
            }
            Phase::Link(link) => {
                link.take(&mut op.hand, &self.place, answer);
                if let Exchanging::Ended(how) = link.at {
                    self.linked_so(op, how);
                }
            }
            Phase::Mark(mark) => {
                mark.take(&mut op.hand, &self.place, answer);
                if let Exchanging::Ended(how) = mark.at {
                    self.marked_so(op, how);
                }
            }
            Phase::Tidy(tidy) => {
                tidy.take(&mut op.hand, &self.place, answer);
                if let Exchanging::Ended(_) = tidy.at {
                    answers(op, Reply::Yes);
                }
            }
            Phase::Value(load) => {
                load.take(&op.hand, answer);
                if let VLoading::Has { raw } = load.at {
                    let value = Word::unpack(raw).value;
                    answers(op, Reply::Found { value });
                }
            }
            Phase::Ends => Complete.take(&mut op.hand, answer),
            Phase::Rests => {}
        }
    }
}
