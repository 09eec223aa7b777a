ghost use Rattle.std.specs.Prelude.{IfOk};
ghost use Rattle.flit_table.specs.Closing.{told_by};
ghost use Rattle.flit_table.specs.Steps.{meaning_of};
ghost use Rattle.flit_trace.specs.Contents.{Content};
ghost use Rattle.flit_trace.specs.SeenTraces.{Shows};
ghost use Rattle.flit_run_runs.specs.Plays.{CanRun, IsReadyFor};
ghost use Rattle.flit_run_runs.specs.Summaries.{IsRunSummaryOf};

use crate::counting::counts_of_outcomes;
use crate::running::run_trace;
use flit_lawful_images::count_lawful_keys;
use flit_model::Work;
use flit_step_runs::summary_of;
use flit_structure::Structure;
use flit_table::{Pass, Running, Told};
use flit_thread_runs::Ran;
use flit_trace::Trace;
use flit_words::NoMemory;
use flit_workers::Gate;
use std::alloc::Global;
use std::sync::Wait;
use std::thread::Threads;

/// Runs the works of a trace on a structure that was opened for them, each in a thread of its own, and makes the text of
/// the summary of the run's report, with what the close has told. The lines, which a summary only counts, are never made.
/// The error is NoMemory alone.
pub fn summary_of_threads<
    S: Structure<Op: Send> + Send + Sync,
    G: Gate + Sync,
    R: Threads + Wait + Sync,
>(
    rt: &R,
    alloc: Global,
    running: Running<S>,
    pass: Pass<S>,
    works: Vec<Work>,
    trace: &Trace,
    gate: &G,
) -> Result<(Vec<u8>, Told), NoMemory>
    requires { IsReadyFor S.meaning running pass trace.now works.items }
    ensures { IfOk result (λ r. (t : Content) → Shows trace.now t →
        CanRun (meaning_of S.meaning running) running.origin.start.value t →
        IsRunSummaryOf t running.origin.start.value (told_by r.1) r.0.items) }
{
    let ran = run_trace(rt, alloc, running, pass, works, trace, gate)?;
    let Ran {
        outcomes,
        image,
        told,
    } = ran;
    let counts = counts_of_outcomes(outcomes.as_slice());
    drop(outcomes);
    let keys = count_lawful_keys(alloc, &image)?;
    let text = summary_of(alloc, counts, keys)?;
    Ok((text, told))
}
