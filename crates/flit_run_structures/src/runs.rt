ghost use Rattle.std.specs.Prelude.{true, false, IfOk};
ghost use Rattle.flit_table.specs.Closing.{told_by};
ghost use Rattle.flit_table.specs.Steps.{meaning_of};
ghost use Rattle.flit_run_runs.specs.Plays.{IsReadyFor};
ghost use Rattle.flit_run_structures.specs.Sources.{IsReadyRun};
ghost use Rattle.flit_run_structures.specs.Texts.{IsReportSeen, IsImageSeen, IsWantedSeen};

use crate::opening::Ready;
use crate::sources::ReadTrace;
use flit_image::write_image;
use flit_model::Work;
use flit_report::report_text;
use flit_run_runs::{image_of_threads, report_of_threads, summary_of_threads};
use flit_structure::Structure;
use flit_table::{Pass, Running, Told};
use flit_trace::Trace;
use flit_words::NoMemory;
use flit_workers::Gate;
use std::alloc::Global;
use std::sync::Wait;
use std::thread::Threads;

/// What is wanted of a run on threads.
#[derive(Clone, Copy, Debug, PartialEq, Eq)]
pub enum Wanted {
    /// The report.
    Report,
    /// Six counts of the report.
    Summary,
    /// The text of the image at the end.
    Image,
}

/// The text of the report of a run of a trace on threads, and what is told of the run. The error is NoMemory alone.
fn report_text_on<S: Structure<Op: Send> + Send + Sync, G: Gate + Sync, R: Threads + Wait + Sync>(
    rt: &R,
    alloc: Global,
    running: Running<S>,
    pass: Pass<S>,
    works: Vec<Work>,
    trace: &Trace,
    gate: &G,
) -> Result<(Vec<u8>, Told), NoMemory>
    requires { IsReadyFor S.meaning running pass trace.now works.items }
    ensures { IfOk result (λ r. IsReportSeen (meaning_of S.meaning running) trace.now
        running.origin.start.value false (told_by r.1) r.0.items) }
{
    let ran = report_of_threads(rt, alloc, running, pass, works, trace, false, gate)?;
    let text = report_text(alloc, &ran.0)?;
    Ok((text, ran.1))
}

/// The text of the summary of that report, which isn't made, and what is told of the run. The error is NoMemory alone.
fn summary_text_on<S: Structure<Op: Send> + Send + Sync, G: Gate + Sync, R: Threads + Wait + Sync>(
    rt: &R,
    alloc: Global,
    running: Running<S>,
    pass: Pass<S>,
    works: Vec<Work>,
    trace: &Trace,
    gate: &G,
) -> Result<(Vec<u8>, Told), NoMemory>
    requires { IsReadyFor S.meaning running pass trace.now works.items }
    ensures { IfOk result (λ r. IsReportSeen (meaning_of S.meaning running) trace.now
        running.origin.start.value true (told_by r.1) r.0.items) }
{
    summary_of_threads(rt, alloc, running, pass, works, trace, gate)
}

/// The text of the image at the end of a run of a trace on threads, and what is told of the run. The error is NoMemory
/// alone.
fn image_text_on<S: Structure<Op: Send> + Send + Sync, G: Gate + Sync, R: Threads + Wait + Sync>(
    rt: &R,
    alloc: Global,
    running: Running<S>,
    pass: Pass<S>,
    works: Vec<Work>,
    trace: &Trace,
    gate: &G,
) -> Result<(Vec<u8>, Told), NoMemory>
    requires { IsReadyFor S.meaning running pass trace.now works.items }
    ensures { IfOk result (λ r. IsImageSeen (meaning_of S.meaning running) trace.now
        running.origin.start.value (told_by r.1) r.0.items) }
{
    let ran = image_of_threads(rt, alloc, running, pass, works, trace, gate)?;
    let text = write_image(alloc, &ran.0)?;
    Ok((text, ran.1))
}

/// What is wanted of a run of a trace on threads, as a text, and what is told of the run. The error is NoMemory alone.
pub(crate) fn text_on<
    S: Structure<Op: Send> + Send + Sync,
    G: Gate + Sync,
    R: Threads + Wait + Sync,
>(
    rt: &R,
    alloc: Global,
    ready: Ready<S>,
    wanted: Wanted,
    gate: &G,
) -> Result<(Vec<u8>, Told), NoMemory>
    requires { IsReadyRun S.meaning ready.running ready.pass ready.read }
    ensures { IfOk result (λ r. IsWantedSeen wanted ready.read.trace (told_by r.1) r.0.items) }
{
    let Ready {
        running,
        pass,
        read,
    } = ready;
    let ReadTrace { trace, works } = read;
    match wanted {
        Wanted::Report => report_text_on(rt, alloc, running, pass, works, &trace, gate),
        Wanted::Summary => summary_text_on(rt, alloc, running, pass, works, &trace, gate),
        Wanted::Image => image_text_on(rt, alloc, running, pass, works, &trace, gate),
    }
}
