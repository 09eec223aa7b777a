ghost use Rattle.std.specs.Prelude.{◌≡◌, ◌≤◌, length, IfOk};
ghost use Rattle.std.specs.List.{AllByRecursion};
ghost use Rattle.flit_sched.specs.Views.{HasWorker, picks_of};
ghost use Rattle.flit_histories.specs.Reached.{IsStart};
ghost use Rattle.flit_run_callers.specs.Crashes.{AreTurnsOf, LeavesHeadline};

use flit_headline::runs_keep_headline;
use flit_lawful_images::recover_lawful_owned;
use flit_model::{Ahead, Entry, Work};
use flit_recover::Recovered;
use flit_sched::Sched;
use flit_structure::Structure;
use flit_words::NoMemory;
use std::alloc::Global;

/// What a crash leaves of a run: the history at the moment of the crash, and what recovery finds.
#[derive(Debug, Drop)]
pub struct Crashed {
    pub history: Vec<Entry>,
    pub found: Recovered,
}

/// Gives each worker that is named its turn, one after another.
fn give_each<S: Structure>(sched: &mut Sched<S>, workers: &[u32])
    requires { AllByRecursion (HasWorker sched.old.run) workers.now }
    ensures structure { sched.new.structure ≡ sched.old.structure }
    ensures turns { AreTurnsOf (S.meaning sched.old.structure) workers.now sched.old.run
        sched.new.run }
{
    for worker in workers {
        sched.turn(*worker);
    }
}

/// Opens a run, gives each worker that is named its turn, and recovers what a crash leaves then that takes these values
/// ahead.
///
/// For every list of turns and each choice of values ahead: the completed calls stand in one legal history, each once, in
/// the order that its caller had seen; recovery finds the map after that history, which holds beside them at most one
/// unfinished update of each worker. The error is NoMemory alone.
pub fn crash_after<S: Structure>(
    alloc: Global,
    structure: S,
    start: &Recovered,
    work: Vec<Work>,
    workers: &[u32],
    ahead: &Ahead,
) -> Result<Crashed, NoMemory>
    requires start { IsStart (S.meaning structure) start.now work.items }
    requires workers { AllByRecursion (λ w. (1 ≤ w) × (w ≤ length work.items)) workers.now }
    ensures { IfOk result (λ c. LeavesHeadline (S.meaning structure) start.now work.items
        workers.now (picks_of ahead.now) c.history.items c.found.keys.items c.found.values.items) }
{
    runs_keep_headline::<S>();
    let mut sched = Sched::open(alloc, structure, start, work)?;
    give_each(&mut sched, workers);
    let history = sched.history(alloc, ahead)?;
    let image = sched.image(alloc, ahead)?;
    drop(sched);
    let found = recover_lawful_owned(alloc, image)?;
    Ok(Crashed { history, found })
}
