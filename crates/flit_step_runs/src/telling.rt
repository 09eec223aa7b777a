ghost use Rattle.std.specs.Prelude.{◌≡◌, ◌≤◌, length, map, IfOk};
ghost use Rattle.flit_report.specs.Report.{content_of};
ghost use Rattle.flit_sched.specs.Turns.{tally_in};
ghost use Rattle.flit_step_reports.specs.StepReports.{version_of};
ghost use Rattle.flit_step_runs.specs.Plays.{IsRunSeen, TellsRunSeen};

use flit_lawful_images::recover_lawful_owned;
use flit_model::Tally;
use flit_report::{Line, Report, Shown};
use flit_sched::Sched;
use flit_structure::Structure;
use flit_trace::Trace;
use flit_words::{Layout, NoMemory};
use std::alloc::Global;

/// The tally of each worker, worker 1 first.
fn tallies_of<S: Structure>(
    alloc: Global,
    sched: &Sched<S>,
    workers: u32,
) -> Result<Vec<Tally>, NoMemory>
    requires { length sched.now.run.parts ≡ workers }
    ensures { IfOk result (λ tallies. tallies.items ≡ map (λ p. tally_in (S.meaning
        sched.now.structure) p.worker.doing) sched.now.run.parts) }
{
    let mut tallies = Vec::with_capacity(alloc, workers as usize)?;
    for before in 0..workers {
        tallies.push(sched.tally(before + 1))?;
    }
    Ok(tallies)
}

/// The version of a report, by which the values show.
pub fn version_of(layout: &Layout) -> u32
    ensures { result ≡ version_of layout.now }
{
    if layout.values { 2 } else { 1 }
}

/// How many rows these are, where they are rows of a structure of so many.
pub fn count_rows(free: &[u32], rows: u32) -> u32
    requires { length free.now ≤ rows }
    ensures { result ≡ length free.now }
{
    let _most = rows;
    free.len() as u32
}

/// The report of a run on which a trace was played, with these lines and events. The run is let go before recovery looks at
/// its image. The error is NoMemory alone.
pub fn tell<S: Structure>(
    alloc: Global,
    sched: Sched<S>,
    trace: &Trace,
    lines: Vec<Line>,
    events: Vec<Shown>,
    summary: bool,
) -> Result<Report, NoMemory>
    requires { IsRunSeen (S.meaning sched.structure) trace.now sched.run }
    ensures summary { IfOk result (λ r. r.summary ≡ summary) }
    ensures events { IfOk result (λ r. r.events.items ≡ events.items) }
    ensures lines { IfOk result (λ r. r.lines.items ≡ lines.items) }
    ensures tells { IfOk result (λ r. TellsRunSeen (S.meaning sched.structure) trace.now
        sched.run (content_of r)) }
{
    let layout = trace.head().layout;
    let ahead = trace.ahead();
    let tallies = tallies_of(alloc, &sched, layout.workers)?;
    let history = sched.history(alloc, ahead)?;
    let image = sched.into_image(alloc, ahead)?;
    let rows = image.rows;
    let found = recover_lawful_owned(alloc, image)?;
    let free = count_rows(&found.free, rows);
    Ok(Report {
        summary,
        version: version_of(&layout),
        events,
        lines,
        history,
        tallies,
        keys: found.keys,
        values: found.values,
        free,
    })
}
