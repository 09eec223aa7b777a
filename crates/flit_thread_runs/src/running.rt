ghost use Rattle.std.specs.Prelude.{◌≡◌, IfOk, map};
ghost use Rattle.flit_table.specs.Closing.{told_by};
ghost use Rattle.flit_table.specs.Passes.{BelongsTo, IsFirst};
ghost use Rattle.flit_table.specs.Steps.{meaning_of};
ghost use Rattle.flit_workers.specs.Ends.{AreRight};
ghost use Rattle.flit_thread_histories.specs.Promises.{KeepsPromises};
ghost use Rattle.flit_thread_runs.specs.Runs.{HasRecovered};

use flit_lawful_images::recover_lawful;
use flit_model::{Ahead, Image, Outcome, Recovered, Work};
use flit_structure::Structure;
use flit_table::{Pass, Running, Told};
use flit_thread_histories::threads_keep_promises;
use flit_words::NoMemory;
use flit_workers::{Gate, ended_gather, gather, run_workers};
use std::alloc::Global;
use std::sync::Wait;
use std::thread::Threads;

/// How Works came out that were run to the end of their structure.
#[derive(Drop)]
pub struct Ran {
    /// The outcomes of each worker's calls, in the order of the Works.
    pub outcomes: Vec<Vec<Outcome>>,
    pub image: Image,
    pub told: Told,
}

/// Runs Works from the opening of a structure on, each in a thread of its own; gathers the passes of their workers, and
/// closes the structure with the image that `ahead` chooses. What is told then keeps all promises: the completed calls
/// stand in one legal history of one map, each once, in the order of their worker; recovery of the image gives the map
/// after that history, which holds beside them at most one unfinished update of each worker. The error is NoMemory alone.
pub fn run_told<S: Structure<Op: Send> + Send + Sync, G: Gate + Sync, R: Threads + Wait + Sync>(
    rt: &R,
    alloc: Global,
    running: Running<S>,
    pass: Pass<S>,
    works: Vec<Work>,
    ahead: &Ahead,
    gate: &G,
) -> Result<Ran, NoMemory>
    requires pass { BelongsTo S.meaning running pass }
    requires first { IsFirst (meaning_of S.meaning running) running.origin pass }
    requires works { AreRight (meaning_of S.meaning running).layout
        (meaning_of S.meaning running).layout.workers works.items }
    ensures told { IfOk result (λ r. KeepsPromises (meaning_of S.meaning running) running.origin
        works.items (map (λ os. os.items) r.outcomes.items) (told_by r.told)) }
    ensures image { IfOk result (λ r. (told_by r.told).image ≡ r.image) }
    ensures ahead { IfOk result (λ r. (told_by r.told).ahead ≡ ahead.now) }
{
    let Ok(ends) = run_workers(rt, alloc, &running, pass, works, gate) else {
        return Err(NoMemory);
    };
    ended_gather::<S>();
    let Ok((pass, _, outcomes)) = gather(&running, alloc, ends) else {
        return Err(NoMemory);
    };
    let mut running = Some(running);
    let (image, told) = Running::close(&mut running, alloc, pass, ahead)?;
    threads_keep_promises::<S>();
    Ok(Ran {
        outcomes,
        image,
        told,
    })
}

/// The same, and what recovery finds in the image: the keys and values of the map after the history that is told. The error
/// is NoMemory alone.
pub fn run_recovered<
    S: Structure<Op: Send> + Send + Sync,
    G: Gate + Sync,
    R: Threads + Wait + Sync,
>(
    rt: &R,
    alloc: Global,
    running: Running<S>,
    pass: Pass<S>,
    works: Vec<Work>,
    ahead: &Ahead,
    gate: &G,
) -> Result<(Ran, Recovered), NoMemory>
    requires pass { BelongsTo S.meaning running pass }
    requires first { IsFirst (meaning_of S.meaning running) running.origin pass }
    requires works { AreRight (meaning_of S.meaning running).layout
        (meaning_of S.meaning running).layout.workers works.items }
    ensures recovered { IfOk result (λ r. HasRecovered (meaning_of S.meaning running) running.origin
        works.items (map (λ os. os.items) r.0.outcomes.items) (told_by r.0.told) r.1) }
    ensures image { IfOk result (λ r. (told_by r.0.told).image ≡ r.0.image) }
    ensures ahead { IfOk result (λ r. (told_by r.0.told).ahead ≡ ahead.now) }
{
    let ran = run_told(rt, alloc, running, pass, works, ahead, gate)?;
    let found = recover_lawful(alloc, &ran.image)?;
    Ok((ran, found))
}
