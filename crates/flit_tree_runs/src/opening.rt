ghost use Rattle.std.specs.Prelude.{◌≡◌, ℕ, ◌<◌, IfOk};
ghost use Rattle.flit_words.specs.Layouts.{words_of};
ghost use Rattle.flit_model.specs.Recovery.{IsRecovery};
ghost use Rattle.flit_place.specs.Tags.{IsSlot};
ghost use Rattle.flit_sched.specs.Openings.{AreRight, opened_run};
ghost use Rattle.flit_tree_heap.specs.Views.{IsTreeLayout};
ghost use Rattle.flit_tree_structure.specs.TreeStructure.{trees};
ghost use Rattle.flit_tree_runs.specs.Opened.{IsTreeOf};

use flit_model::{Recovered, Work};
use flit_place::Placement;
use flit_rows::Pool;
use flit_sched::{Sched, recovered_opens};
use flit_tree::Tree;
use flit_words::{Layout, NoMemory};
use std::alloc::Global;

/// A run of a tree that starts at what recovery found, over the free rows found there. The error is
/// NoMemory alone.
pub fn open_tree<P: Placement + Drop>(
    alloc: Global,
    layout: Layout,
    place: P,
    start: &Recovered,
    work: Vec<Work>,
) -> Result<Sched<Tree<P>>, NoMemory>
    requires tree { IsTreeLayout layout }
    requires found { IsRecovery layout start.now.image.words.items start.now.keys.items
        start.now.values.items start.now.free.items }
    requires slots { (word : ℕ) → word < words_of layout →
        IsSlot (P.place place).counted layout.slots ((P.place place).slot word) }
    requires right { AreRight layout work.items }
    ensures structure { IfOk result (λ r. IsTreeOf r.structure layout place
        start.now.free.items) }
    ensures run { IfOk result (λ r. r.run ≡ opened_run
        (trees layout (P.place place) start.now.free.items) start.now work.items) }
{
    recovered_opens();
    let pool = Pool::new(alloc, &start.free)?;
    Sched::open(alloc, Tree::new(layout, place, pool), start, work)
}
