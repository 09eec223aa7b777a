ghost use Rattle.std.specs.Prelude.{◌≡◌, ◌≤◌, ◌++◌, length, IfOk};
ghost use Rattle.std.specs.List.{AllByRecursion};
ghost use Rattle.flit_sched.specs.Views.{HasWorker};
ghost use Rattle.flit_turns.specs.Lines.{ShowsLines, turn_lines, last_lines};

use flit_sched::Sched;
use flit_structure::Structure;
use flit_trace::{Trace, Turns};
use flit_turns::{Events, give_turns, run_all};
use flit_words::NoMemory;

/// Gives the turns of turn lines, in their order.
fn give_lines<S: Structure>(
    sched: &mut Sched<S>,
    turns: Turns<'_>,
    events: &mut Events,
) -> Result<(), NoMemory>
    requires { AllByRecursion (λ t. HasWorker sched.old.run t.0) turns }
    ensures structure { sched.new.structure ≡ sched.old.structure }
    ensures kept { events.new.kept ≡ events.old.kept }
    ensures lines { IfOk result (λ done. ShowsLines (S.meaning sched.old.structure)
        (turn_lines turns.entry) sched.old.run sched.new.run events.old.kept events.old.shown.items
        events.new.shown.items) }
{
    for (worker, most) in turns {
        give_turns(sched, worker, most, events)?;
    }
    Ok(())
}

/// Plays a trace on a run: gives the turns of its turn lines, in their order, and then lets worker 1 run until it is out,
/// then worker 2, and so on. The events that the workers make are shown. The error is NoMemory alone.
pub fn play<S: Structure>(
    sched: &mut Sched<S>,
    trace: &Trace,
    events: &mut Events,
) -> Result<(), NoMemory>
    requires turns { AllByRecursion (λ t. HasWorker sched.old.run t.0) trace.now.turns }
    requires workers { trace.now.head.layout.workers ≤ length sched.old.run.parts }
    ensures structure { sched.new.structure ≡ sched.old.structure }
    ensures kept { events.new.kept ≡ events.old.kept }
    ensures lines { IfOk result (λ done. ShowsLines (S.meaning sched.old.structure)
        (turn_lines trace.now.turns ++ last_lines trace.now.head.layout.workers) sched.old.run
        sched.new.run events.old.kept events.old.shown.items events.new.shown.items) }
{
    give_lines(sched, trace.turns(), events)?;
    run_all(sched, trace.head().layout.workers, events)?;
    Ok(())
}
