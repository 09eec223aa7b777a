use crate::running::Running;
use crate::views::{Start, View};
use atomic_table::Seat;
use flit_model::Event;
use flit_structure::{Loader, Structure};

// Makes the loads of a call under way at the seat of its pass, and begins nothing with them.
impl<S: Structure> Loader<S::Op> for Running<S> {
    ghost use Rattle.flit_model.specs.declared.calls.Call.{Call};
    ghost use Rattle.flit_table.specs.declared.views.View.{View as A_view};
    ghost use Rattle.flit_table.specs.Steps.{meaning_of};
    ghost use Rattle.flit_table.specs.Passes.{IsLoadedAt};

    type Seat = Seat<u64, View<S, S::Op>>;

    ghost Run = { Call × A_view S S.Op };

    ghost meaning = { meaning_of S.meaning };

    ghost stands = { IsLoadedAt S.meaning };

    #[inline(always)]
    fn load(&self, seat: &mut Seat<u64, View<S, S::Op>>, word: u32) -> u64 {
        self.step(seat, &Start::Go, Event::Load { word })
    }
}
