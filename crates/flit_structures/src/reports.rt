ghost use Rattle.std.specs.Prelude.{◌≡◌, IfOk};
ghost use Rattle.flit_model.specs.Recovery.{IsRecovery};
ghost use Rattle.flit_step_runs.specs.Plays.{CanPlaySeen};
ghost use Rattle.flit_structures.specs.Reports.{IsToldOfTrace, WasRead};
ghost use Rattle.flit_structures.specs.Runs.{IsToldSeen};
ghost use Rattle.flit_structures.specs.Starts.{StartsSeen};
ghost use Rattle.flit_structures.specs.Structures.{structure_of, IsPlayable};

use crate::laws::traces_play;
use crate::runs::{Wanted, text_of_run};
use flit_hashed::Hashed;
use flit_list::List;
use flit_packed::Packed;
use flit_place::{Adjacent, Placement};
use flit_recover::Recovered;
use flit_rows::Pool;
use flit_sched::recovered_opens;
use flit_trace::{Place, Trace, within_limits};
use flit_tree::Tree;
use flit_words::{Kind, NoMemory};
use std::alloc::Global;

/// What is wanted of the run of a trace with a placement, on the structure of its kind, as a text. The error is NoMemory
/// alone.
fn told_over<P: Placement + Drop>(
    alloc: Global,
    place: P,
    start: Recovered,
    trace: Trace<'_>,
    wanted: Wanted,
) -> Result<Vec<u8>, NoMemory>
    requires found { IsRecovery trace.head.layout start.image.words.items
        start.keys.items start.values.items start.free.items }
    requires playable { CanPlaySeen (structure_of trace.head.layout (P.place place)
        trace.head.layout.kind start.free.items).meaning start trace }
    ensures { IfOk result (λ text. IsToldSeen (structure_of trace.entry.head.layout (P.place place)
        trace.entry.head.layout.kind start.free.items).meaning trace.entry wanted start
        text.items) }
{
    recovered_opens();
    let layout = trace.head().layout;
    let pool = Pool::new(alloc, &start.free)?;
    match layout.kind {
        Kind::List => text_of_run(alloc, List::new(layout, place, pool), start, trace, wanted),
        Kind::Hash => text_of_run(alloc, List::new(layout, place, pool), start, trace, wanted),
        Kind::Tree => text_of_run(alloc, Tree::new(layout, place, pool), start, trace, wanted),
    }
}

/// What is wanted of the run of a trace that was read, on the structure that it names, from what recovery finds where it
/// starts, as a text. The error is NoMemory alone.
pub fn told(
    alloc: Global,
    start: Recovered,
    trace: Trace<'_>,
    wanted: Wanted,
) -> Result<Vec<u8>, NoMemory>
    requires read { WasRead trace }
    requires playable { IsPlayable trace.head }
    requires starts { StartsSeen trace start }
    ensures { IfOk result (λ text. IsToldOfTrace trace.entry wanted start text.items) }
{
    traces_play();
    within_limits();
    match trace.head().place {
        Place::Adjacent => told_over(alloc, Adjacent, start, trace, wanted),
        Place::Hashed(slots) => told_over(alloc, Hashed { slots }, start, trace, wanted),
        Place::Packed => told_over(alloc, Packed, start, trace, wanted),
        Place::Lines => unreachable!(),
    }
}
