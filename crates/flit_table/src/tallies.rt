ghost use Rattle.std.specs.Prelude.{◌≡◌};
ghost use Rattle.flit_table.specs.Moves.{tally_in};
ghost use Rattle.flit_table.specs.Steps.{meaning_of};
ghost use Rattle.flit_table.specs.Passes.{waiting_view, BelongsTo};

use crate::passes::{Pass, Rest};
use crate::running::Running;
use flit_model::Tally;
use flit_structure::Structure;

impl<S: Structure> Running<S> {
    /// The tally of a pass's worker, with that of the call that it was stopped in. With one worker nothing is queued.
    pub fn tally(&self, pass: &Pass<S>) -> Tally
        requires { BelongsTo S.meaning self.now pass.now }
        ensures tally { result ≡ tally_in (meaning_of S.meaning self.now)
            (waiting_view (meaning_of S.meaning self.now) pass.now).post.worker.doing }
        ensures queued { (meaning_of S.meaning self.now).layout.workers ≡ 1 → result.queued ≡ 0 }
    {
        match &pass.held.rest {
            Rest::Hand(hand) => hand.tally,
            Rest::Ended(op) => self.structure.tally(op),
            Rest::Stopped { tally, .. } => *tally,
        }
    }
}
