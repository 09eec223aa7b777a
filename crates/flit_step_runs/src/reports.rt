ghost use Rattle.std.specs.Prelude.{◌≡◌, IfOk};
ghost use Rattle.flit_report.specs.Report.{content_of};
ghost use Rattle.flit_trace.specs.Contents.{Content};
ghost use Rattle.flit_trace.specs.SeenTraces.{Shows};
ghost use Rattle.flit_step_reports.specs.StepReports.{IsReportOf};
ghost use Rattle.flit_step_runs.specs.Plays.{CanPlay, CanPlaySeen};

use crate::lines::lines_of;
use crate::opened::run_of;
use crate::telling::tell;
use flit_recover::Recovered;
use flit_report::Report;
use flit_step_reports::plans_are_runs;
use flit_structure::Structure;
use flit_trace::Trace;
use flit_turns::Events;
use flit_words::NoMemory;
use std::alloc::Global;

/// The report of the run of a trace from what recovery found, with its events where they are wanted. The error is
/// NoMemory alone.
pub fn report_of_run<S: Structure>(
    alloc: Global,
    structure: S,
    start: Recovered,
    trace: &Trace,
    shows: bool,
    summary: bool,
) -> Result<Report, NoMemory>
    requires { CanPlaySeen (S.meaning structure) start trace.now }
    ensures summary { IfOk result (λ r. r.summary ≡ summary) }
    ensures report { IfOk result (λ r. (t : Content) → Shows trace.now t →
        CanPlay (S.meaning structure) start t →
        IsReportOf (S.meaning structure) t shows start (content_of r)) }
{
    plans_are_runs::<S>();
    let mut events = Events {
        kept: shows,
        shown: Vec::new(alloc),
    };
    let sched = run_of(alloc, structure, start, trace, &mut events)?;
    let lines = lines_of(alloc, &sched, trace)?;
    let report = tell(alloc, sched, trace, lines, events.shown, summary)?;
    Ok(report)
}
