ghost use Rattle.std.specs.Prelude.{◌≡◌, IfOk};
ghost use Rattle.flit_trace.specs.Contents.{Content};
ghost use Rattle.flit_trace.specs.SeenTraces.{Shows};
ghost use Rattle.flit_step_reports.specs.StepReports.{AreWorksOf};
ghost use Rattle.flit_step_runs.specs.Plays.{CanPlay, CanPlaySeen, IsPlayed, ShowsTurns};

use crate::playing::play;
use crate::works::works_of;
use flit_model::Work;
use flit_recover::Recovered;
use flit_sched::Sched;
use flit_structure::Structure;
use flit_trace::Trace;
use flit_turns::Events;
use flit_words::NoMemory;
use std::alloc::Global;

/// Opens a run of a trace's works at what recovery found, which it lets go then, and plays the trace on it. The error is
/// NoMemory alone.
pub fn run_of<S: Structure>(
    alloc: Global,
    structure: S,
    start: Recovered,
    trace: &Trace,
    events: &mut Events,
) -> Result<Sched<S>, NoMemory>
    requires { CanPlaySeen (S.meaning structure) start trace.now }
    ensures structure { IfOk result (λ r. r.structure ≡ structure) }
    ensures played { IfOk result (λ r. (t : Content) → Shows trace.now t →
        CanPlay (S.meaning structure) start t → IsPlayed (S.meaning structure) t start
        events.old.kept r.run events.old.shown.items events.new.shown.items) }
{
    let works = works_of(alloc, trace)?;
    run_of_works(alloc, structure, start, works, trace, events)
}

/// Opens a run of the works of a trace, of which only the turn lines are read, at what recovery found, which it lets go then,
/// and plays the trace on it. The error is NoMemory alone.
pub(crate) fn run_of_works<S: Structure>(
    alloc: Global,
    structure: S,
    start: Recovered,
    works: Vec<Work>,
    trace: &Trace,
    events: &mut Events,
) -> Result<Sched<S>, NoMemory>
    requires { (t : Content) × AreWorksOf t works.items × ShowsTurns trace.now t ×
        CanPlay (S.meaning structure) start t }
    ensures structure { IfOk result (λ r. r.structure ≡ structure) }
    ensures played { IfOk result (λ r. (t : Content) → AreWorksOf t works.items →
        ShowsTurns trace.now t → CanPlay (S.meaning structure) start t → IsPlayed (S.meaning
        structure) t start events.old.kept r.run events.old.shown.items events.new.shown.items) }
{
    let mut sched = Sched::open(alloc, structure, &start, works)?;
    drop(start);
    play(&mut sched, trace, events)?;
    Ok(sched)
}
