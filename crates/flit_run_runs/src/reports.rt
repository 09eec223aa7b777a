ghost use Rattle.std.specs.Prelude.{◌≡◌, IfOk};
ghost use Rattle.flit_model.specs.Recovery.{IsWhole};
ghost use Rattle.flit_report.specs.Report.{content_of};
ghost use Rattle.flit_table.specs.Closing.{told_by};
ghost use Rattle.flit_table.specs.Steps.{meaning_of};
ghost use Rattle.flit_trace.specs.Contents.{Content};
ghost use Rattle.flit_trace.specs.SeenTraces.{Shows};
ghost use Rattle.flit_run_reports.specs.RunReports.{IsRunOnThreads, IsRunReportOf};
ghost use Rattle.flit_run_runs.specs.Plays.{CanRun, IsReadyFor};

use crate::lines::lines_of_calls;
use crate::running::run_trace;
use crate::telling::tell;
use flit_model::{Image, Work};
use flit_report::Report;
use flit_structure::Structure;
use flit_table::{Pass, Running, Told};
use flit_thread_runs::Ran;
use flit_trace::Trace;
use flit_words::NoMemory;
use flit_workers::Gate;
use std::alloc::Global;
use std::sync::Wait;
use std::thread::Threads;

/// Runs the works of a trace on a structure that was opened for them, each in a thread of its own, and makes the report of
/// what became of each call and of what recovery finds at the end, with what the close has told. The error is NoMemory
/// alone.
pub fn report_of_threads<
    S: Structure<Op: Send> + Send + Sync,
    G: Gate + Sync,
    R: Threads + Wait + Sync,
>(
    rt: &R,
    alloc: Global,
    running: Running<S>,
    pass: Pass<S>,
    works: Vec<Work>,
    trace: &Trace,
    summary: bool,
    gate: &G,
) -> Result<(Report, Told), NoMemory>
    requires { IsReadyFor S.meaning running pass trace.now works.items }
    ensures summary { IfOk result (λ r. r.0.summary ≡ summary) }
    ensures report { IfOk result (λ r. (t : Content) → Shows trace.now t →
        CanRun (meaning_of S.meaning running) running.origin.start.value t →
        IsRunReportOf t running.origin.start.value (told_by r.1) (content_of r.0)) }
{
    let ran = run_trace(rt, alloc, running, pass, works, trace, gate)?;
    let Ran {
        outcomes,
        image,
        told,
    } = ran;
    let lines = lines_of_calls(alloc, trace, outcomes.as_slice())?;
    let report = tell(alloc, &trace.head().layout, lines, image, summary)?;
    Ok((report, told))
}

/// Runs the works of a trace in the same way, and hands out the image, which takes no value ahead, with what the close has
/// told. The error is NoMemory alone.
pub fn image_of_threads<
    S: Structure<Op: Send> + Send + Sync,
    G: Gate + Sync,
    R: Threads + Wait + Sync,
>(
    rt: &R,
    alloc: Global,
    running: Running<S>,
    pass: Pass<S>,
    works: Vec<Work>,
    trace: &Trace,
    gate: &G,
) -> Result<(Image, Told), NoMemory>
    requires { IsReadyFor S.meaning running pass trace.now works.items }
    ensures image { IfOk result (λ r. (told_by r.1).image ≡ r.0) }
    ensures whole { IfOk result (λ r. IsWhole r.0) }
    ensures run { IfOk result (λ r. (t : Content) → Shows trace.now t →
        CanRun (meaning_of S.meaning running) running.origin.start.value t →
        IsRunOnThreads t running.origin.start.value (told_by r.1)) }
{
    let ran = run_trace(rt, alloc, running, pass, works, trace, gate)?;
    let Ran {
        outcomes: _,
        image,
        told,
    } = ran;
    Ok((image, told))
}
