ghost use Rattle.std.specs.Prelude.{◌≡◌, false, IfOk};
ghost use Rattle.flit_model.specs.Recovery.{IsWhole};
ghost use Rattle.flit_trace.specs.Contents.{Content};
ghost use Rattle.flit_trace.specs.SeenTraces.{Shows};
ghost use Rattle.flit_step_runs.specs.Plays.{CanPlay, CanPlaySeen};
ghost use Rattle.flit_structures.specs.Runs.{IsImageOfRun, IsReportText, IsToldSeen};

use flit_image::write_image;
use flit_model::Image;
use flit_recover::Recovered;
use flit_report::report_text;
use flit_step_reports::plans_are_runs;
use flit_step_runs::{report_of_run, run_of, summary_of_run};
use flit_structure::Structure;
use flit_trace::Trace;
use flit_turns::Events;
use flit_words::NoMemory;
use std::alloc::Global;

/// What is wanted of the run of a trace.
#[derive(Clone, Copy, Debug, PartialEq, Eq)]
pub enum Wanted {
    /// The report.
    Report,
    /// The report, with a line for each event before it.
    Events,
    /// Six counts of the report.
    Summary,
    /// The text of the image that a crash leaves at the end.
    Image,
}

/// The text of the report of the run of a trace from what recovery found. The error is NoMemory alone.
fn report_text_of_run<S: Structure>(
    alloc: Global,
    structure: S,
    start: Recovered,
    trace: &Trace,
    shows: bool,
) -> Result<Vec<u8>, NoMemory>
    requires { CanPlaySeen (S.meaning structure) start trace.now }
    ensures { IfOk result (λ text. (t : Content) → Shows trace.now t →
        CanPlay (S.meaning structure) start t →
        IsReportText (S.meaning structure) t shows false start text.items) }
{
    let report = report_of_run(alloc, structure, start, trace, shows, false)?;
    report_text(alloc, &report)
}

/// The image that a crash leaves at the end of the run of a trace from what recovery found, with the values ahead that
/// the trace names. The error is NoMemory alone.
pub fn image_of_run<S: Structure>(
    alloc: Global,
    structure: S,
    start: Recovered,
    trace: &Trace,
) -> Result<Image, NoMemory>
    requires { CanPlaySeen (S.meaning structure) start trace.now }
    ensures whole { IfOk result IsWhole }
    ensures image { IfOk result (λ image. (t : Content) → Shows trace.now t →
        CanPlay (S.meaning structure) start t →
        IsImageOfRun (S.meaning structure) t start image) }
{
    plans_are_runs::<S>();
    let mut events = Events {
        kept: false,
        shown: Vec::new(alloc),
    };
    let ahead = trace.ahead();
    let sched = run_of(alloc, structure, start, trace, &mut events)?;
    let image = sched.into_image(alloc, ahead)?;
    Ok(image)
}

/// What is wanted of the run of a trace from what recovery found, as a text. The error is NoMemory alone.
pub fn text_of_run<S: Structure>(
    alloc: Global,
    structure: S,
    start: Recovered,
    trace: Trace<'_>,
    wanted: Wanted,
) -> Result<Vec<u8>, NoMemory>
    requires { CanPlaySeen (S.meaning structure) start trace }
    ensures { IfOk result (λ text.
        IsToldSeen (S.meaning structure) trace.entry wanted start text.items) }
{
    match wanted {
        Wanted::Report => report_text_of_run(alloc, structure, start, &trace, false),
        Wanted::Events => report_text_of_run(alloc, structure, start, &trace, true),
        Wanted::Summary => summary_of_run(alloc, structure, start, trace),
        Wanted::Image => {
            let image = image_of_run(alloc, structure, start, &trace)?;
            write_image(alloc, &image)
        }
    }
}
