ghost use Rattle.std.specs.Prelude.{◌≡◌, ℕ, ◌+◌, ◌<◌, ◌≤◌, [], All, IsSome, IfOk, IfErr, OnOk, length, map, slice_index_or};
ghost use Rattle.std.specs.List.{AllByRecursion};
ghost use Rattle.std.specs.Vec.{vec_capacity, vec_len};
ghost use Rattle.flit_table.specs.Passes.{BelongsTo, MayWork, view_of, own_name, own_names, own_calls};
ghost use Rattle.flit_table.specs.Steps.{meaning_of};
ghost use Rattle.flit_workers.specs.declared.ends.End.{End};
ghost use Rattle.flit_workers.specs.Ends.{AreRight, IsRoom, MayRun, HasRun, AreReady, HaveEnded};

use crate::ends::End;
use crate::gates::Gate;
use crate::rooms::{Room, put_unbegun, rooms_for};
use crate::worker::work;
use flit_model::Work;
use flit_structure::Structure;
use flit_table::{Pass, Running};
use flit_words::NoMemory;
use std::alloc::Global;
use std::sync::Wait;
use std::thread::{Threads, for_each_mut};

// One worker makes its items.
fn run_one<S: Structure, G: Gate, R: Wait>(rt: &R, running: &Running<S>, end: &mut End<S>, gate: &G)
    requires { MayRun S.meaning running.now end.old }
    ensures { HasRun S.meaning running.now end.old end.new }
{
    put_unbegun(&end.work.items, &mut end.outcomes);
    work(
        rt,
        running,
        &mut end.pass,
        &end.work,
        end.outcomes.as_mut_slice(),
        gate,
    );
}

// All workers make their items, each in a thread of its own.
fn run_all<S: Structure<Op: Send> + Send + Sync, G: Gate + Sync, R: Threads + Wait + Sync>(
    rt: &R,
    running: &Running<S>,
    ends: &mut [End<S>],
    gate: &G,
)
    requires some { 0 < length ends.old }
    requires may { All (MayRun S.meaning running.now) ends.old }
    ensures count { length ends.new ≡ length ends.old }
    ensures run { (n : ℕ) (e : End S S.Op) → n < length ends.old →
        HasRun S.meaning running.now (slice_index_or ends.old n e) (slice_index_or ends.new n e) }
{
    let threads = ends.len();
    for_each_mut(
        rt,
        ends,
        threads,
        &|_: usize, end: &mut End<S>|
            requires { MayRun S.meaning running.now end.now }
            ensures { HasRun S.meaning running.entry.now end.entry.now end.exit.now }
        { run_one(rt, running, end, gate) },
    );
}

// Gives each room a pass of one name, the first that of the pass itself.
fn hand_out<S: Structure>(
    running: &Running<S>,
    mut pass: Pass<S>,
    rooms: Vec<Room>,
    ends: &mut Vec<End<S>>,
)
    requires pass { MayWork S.meaning running.now pass }
    requires calls { own_calls pass ≡ 0 }
    requires names { length rooms.items ≡ own_names pass }
    requires rooms { AllByRecursion IsRoom rooms.items }
    requires ends { ends.old.items ≡ [] }
    requires len { vec_len ends.old ≡ 0 }
    requires capacity { length rooms.items ≤ vec_capacity ends.old }
    ensures { AreReady S.meaning running.now (view_of pass) (map (λ r. r.work) rooms.items)
        ends.new.items }
{
    let mut left = pass.names();
    for room in rooms {
        let Room { work, outcomes } = room;
        if left <= 1 {
            ends.push_reserved(End {
                work,
                outcomes,
                pass,
            });
            return;
        }
        left -= 1;
        let rest = running.split(&mut pass, left);
        ends.push_reserved(End {
            work,
            outcomes,
            pass,
        });
        pass = rest;
    }
}

/// Runs the Works, each in a thread of its own, through passes of one name each. The first works through the pass itself,
/// and the others through passes split off from it; they end in the order of their names. A worker makes the items of its
/// Work in order, by `answer` and `evict` where it has no stop, and by `answer_within` and `evict` with the steps that are
/// left where it has one; with no step left it begins no item. The gate is told of each call before it is begun, and when
/// it has its reply. At NoMemory no call was made, and the pass is handed back unchanged.
pub fn run_workers<S: Structure<Op: Send> + Send + Sync, G: Gate + Sync, R: Threads + Wait + Sync>(
    rt: &R,
    alloc: Global,
    running: &Running<S>,
    pass: Pass<S>,
    work: Vec<Work>,
    gate: &G,
) -> Result<Vec<End<S>>, (Pass<S>, NoMemory)>
    requires pass { MayWork S.meaning running.now pass }
    requires calls { own_calls pass ≡ 0 }
    requires works { AreRight (meaning_of S.meaning running.now).layout (own_names pass)
        work.items }
    ensures ended { IfOk result (λ ends. HaveEnded S.meaning running.now (view_of pass) work.items
        ends.items) }
    ensures refused { IfErr result (λ e. e.0 ≡ pass) }
{
    let Ok(rooms) = rooms_for(alloc, work) else {
        return Err((pass, NoMemory));
    };
    let Ok(mut ends) = Vec::with_capacity(alloc, rooms.len()) else {
        return Err((pass, NoMemory));
    };
    hand_out(running, pass, rooms, &mut ends);
    run_all(rt, running, ends.as_mut_slice(), gate);
    Ok(ends)
}
