ghost use Rattle.std.specs.Prelude.{◌≡◌, ◌≤◌, IfOk, length, map};
ghost use Rattle.std.specs.List.{flat_map};
ghost use Rattle.flit_words.specs.declared.limits.TheConstants.{MOST_CALLS};
ghost use Rattle.flit_table.specs.Closing.{told_by};
ghost use Rattle.flit_table.specs.Steps.{meaning_of};
ghost use Rattle.flit_trace.specs.Contents.{Content};
ghost use Rattle.flit_trace.specs.SeenTraces.{Shows};
ghost use Rattle.flit_run_reports.specs.RunLaws.{TellsTrace};
ghost use Rattle.flit_run_runs.specs.Plays.{CanRun, IsReadyFor};

use flit_model::{Ahead, Work};
use flit_run_reports::promises_tell_traces;
use flit_structure::Structure;
use flit_table::{Pass, Running};
use flit_thread_runs::{Ran, run_told};
use flit_trace::Trace;
use flit_words::NoMemory;
use flit_workers::Gate;
use std::alloc::Global;
use std::sync::Wait;
use std::thread::Threads;

/// Runs the works of a trace on a structure that was opened for them, each in a thread of its own, and closes it with the
/// image that takes no value ahead. The error is NoMemory alone.
pub fn run_trace<S: Structure<Op: Send> + Send + Sync, G: Gate + Sync, R: Threads + Wait + Sync>(
    rt: &R,
    alloc: Global,
    running: Running<S>,
    pass: Pass<S>,
    works: Vec<Work>,
    trace: &Trace,
    gate: &G,
) -> Result<Ran, NoMemory>
    requires { IsReadyFor S.meaning running pass trace.now works.items }
    ensures told { IfOk result (λ r. (t : Content) → Shows trace.now t →
        CanRun (meaning_of S.meaning running) running.origin.start.value t →
        TellsTrace t running.origin.start.value (told_by r.told)
        (map (λ os. os.items) r.outcomes.items)) }
    ensures image { IfOk result (λ r. (told_by r.told).image ≡ r.image) }
    ensures few { IfOk result (λ r.
        length (flat_map (λ os. os.items) r.outcomes.items) ≤ MOST_CALLS) }
{
    promises_tell_traces::<S>();
    let ran = run_told(rt, alloc, running, pass, works, &Ahead::None, gate)?;
    Ok(ran)
}
