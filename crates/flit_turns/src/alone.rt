ghost use Rattle.std.specs.Prelude.{◌≡◌, ℕ, ◌<◌, ◌≤◌, None, true, false, length, IfOk};
ghost use Rattle.flit_sched.specs.Turns.{IsOut, left_at};
ghost use Rattle.flit_sched.specs.Views.{HasWorker, OfWorker};
ghost use Rattle.flit_turns.specs.Lines.{ShowsSome, ShowsLine, ShowsLines, last_lines};

use crate::events::Events;
use crate::giving::show_turn;
use flit_sched::Sched;
use flit_structure::Structure;
use flit_words::NoMemory;

/// Gives a worker turns until its item is over, or it is out. It answers whether an item is over.
fn show_item<S: Structure>(
    sched: &mut Sched<S>,
    worker: u32,
    events: &mut Events,
) -> Result<bool, NoMemory>
    requires { HasWorker sched.old.run worker }
    ensures structure { sched.new.structure ≡ sched.old.structure }
    ensures kept { events.new.kept ≡ events.old.kept }
    ensures made { IfOk result (λ over. (made : ℕ) × ShowsSome (S.meaning sched.old.structure)
        worker made sched.old.run sched.new.run events.old.kept events.old.shown.items
        events.new.shown.items) }
    ensures fewer { IfOk result (λ over. over ≡ true → left_at sched.new.run worker < left_at
        sched.old.run worker) }
    ensures out { IfOk result (λ over. over ≡ false → OfWorker sched.new.run worker IsOut) }
{
    let left = sched.items_left(worker);
    'turns: loop {
        if !show_turn(sched, worker, events)? {
            return Ok(false);
        }
        if sched.items_left(worker) < left {
            return Ok(true);
        }
    }
}

/// Gives a worker turns, and nobody else, until it is out: it has no item left, or has made as many events as its stop
/// says. The events that it makes are shown.
pub fn run_alone<S: Structure>(
    sched: &mut Sched<S>,
    worker: u32,
    events: &mut Events,
) -> Result<(), NoMemory>
    requires { HasWorker sched.old.run worker }
    ensures structure { sched.new.structure ≡ sched.old.structure }
    ensures kept { events.new.kept ≡ events.old.kept }
    ensures line { IfOk result (λ done. ShowsLine (S.meaning sched.old.structure)
        (record { worker = worker; most = None }) sched.old.run sched.new.run events.old.kept
        events.old.shown.items events.new.shown.items) }
{
    'items: while show_item(sched, worker, events)? {}
    Ok(())
}

/// Lets worker 1 run alone until it is out, then worker 2, and so on, up to so many workers.
pub fn run_all<S: Structure>(
    sched: &mut Sched<S>,
    workers: u32,
    events: &mut Events,
) -> Result<(), NoMemory>
    requires { workers ≤ length sched.old.run.parts }
    ensures structure { sched.new.structure ≡ sched.old.structure }
    ensures kept { events.new.kept ≡ events.old.kept }
    ensures lines { IfOk result (λ done. ShowsLines (S.meaning sched.old.structure)
        (last_lines workers) sched.old.run sched.new.run events.old.kept events.old.shown.items
        events.new.shown.items) }
{
    for before in 0..workers {
        run_alone(sched, before + 1, events)?;
    }
    Ok(())
}
