ghost use Rattle.std.specs.Prelude.{◌≡◌};
ghost use Rattle.flit_list_steps.specs.Steps.{row_of};

use crate::marked::Marked;
use flit_list::List;
use flit_list_steps::{ListOp, Phase};
use flit_place::Placement;
use flit_words::{Link, Word};

/// The row to which the link of a raw word leads.
fn row_in(raw: u64) -> u32
    ensures { result ≡ row_of raw }
{
    Link::of(Word::unpack(raw).value).row
}

impl<P: Placement + Drop> Marked for List<P> {
    ghost use Rattle.flit_marked.specs.Lists.{told_by, list_is_marked};

    ghost row_of = { told_by };

    fn row(&self, op: &ListOp) -> u32 {
        match &op.at {
            Phase::Link(link) => row_in(link.to),
            _ => row_in(op.path.pred.raw),
        }
    }

    ghost marked = { list_is_marked P.place };
}
