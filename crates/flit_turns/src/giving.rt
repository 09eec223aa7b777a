ghost use Rattle.std.specs.Prelude.{◌≡◌, Some, IfOk};
ghost use Rattle.flit_sched.specs.Views.{HasWorker};
ghost use Rattle.flit_turns.specs.Lines.{ShowsOne, ShowsLine, FallsBy};

use crate::events::Events;
use flit_report::Shown;
use flit_sched::{Sched, Turn};
use flit_structure::Structure;
use flit_words::NoMemory;

/// Gives a worker its turn, and shows its event. It answers whether the worker made one; else it is out.
pub(crate) fn show_turn<S: Structure>(
    sched: &mut Sched<S>,
    worker: u32,
    events: &mut Events,
) -> Result<bool, NoMemory>
    requires { HasWorker sched.old.run worker }
    ensures structure { sched.new.structure ≡ sched.old.structure }
    ensures kept { events.new.kept ≡ events.old.kept }
    ensures one { IfOk result (λ made. ShowsOne (S.meaning sched.old.structure) worker made
        sched.old.run sched.new.run events.old.kept events.old.shown.items events.new.shown.items) }
    ensures falls { IfOk result (λ made. FallsBy (S.meaning sched.old.structure) worker made
        sched.old.run sched.new.run) }
{
    match sched.turn(worker) {
        Turn::Idle => Ok(false),
        Turn::Event { event, answer } => {
            events.show(Shown {
                worker,
                event,
                answer,
            })?;
            Ok(true)
        }
    }
}

/// Gives a worker so many turns, or fewer where it is out before. The events that it makes are shown.
pub fn give_turns<S: Structure>(
    sched: &mut Sched<S>,
    worker: u32,
    most: u64,
    events: &mut Events,
) -> Result<(), NoMemory>
    requires { HasWorker sched.old.run worker }
    ensures structure { sched.new.structure ≡ sched.old.structure }
    ensures kept { events.new.kept ≡ events.old.kept }
    ensures line { IfOk result (λ done. ShowsLine (S.meaning sched.old.structure)
        (record { worker = worker; most = Some most }) sched.old.run sched.new.run events.old.kept
        events.old.shown.items events.new.shown.items) }
{
    let mut made = 0;
    while made < most {
        if !show_turn(sched, worker, events)? {
            return Ok(());
        }
        made += 1;
    }
    Ok(())
}
