ghost use Rattle.std.specs.Prelude.{IfOk, IfErr};
ghost use Rattle.flit_table.specs.Closing.{told_by};
ghost use Rattle.flit_structures.specs.Structures.{structure_of};
ghost use Rattle.flit_run_structures.specs.Sources.{IsOutset, RunsSource, IsTextFrom, HasNoTextFrom};

use crate::laws::traces_run;
use crate::opening::opened;
use crate::runs::{Wanted, text_on};
use crate::sources::{Outset, Source};
use flit_hashed::Hashed;
use flit_list::List;
use flit_packed::Packed;
use flit_place::{Adjacent, Placement};
use flit_recover::Recovered;
use flit_rows::Pool;
use flit_sched::recovered_opens;
use flit_structure::Structure;
use flit_structures::{NoText, heads_open};
use flit_table::Told;
use flit_trace::Place;
use flit_tree::Tree;
use flit_words::Kind;
use flit_workers::Gate;
use std::alloc::Global;
use std::sync::Wait;
use std::thread::Threads;

/// Runs the trace of a source on a structure that opens where the trace starts.
///
/// # Errors
/// Those of `opened`.
fn text_from<S: Structure<Op: Send> + Send + Sync, G: Gate + Sync, R: Threads + Wait + Sync>(
    rt: &R,
    alloc: Global,
    structure: S,
    start: Recovered,
    source: Source,
    wanted: Wanted,
    gate: &G,
) -> Result<(Vec<u8>, Told), NoText>
    requires runs { RunsSource (S.meaning structure) start source }
    ensures text { IfOk result (λ r. IsTextFrom source wanted (told_by r.1) r.0.items) }
    ensures none { IfErr result (HasNoTextFrom source) }
{
    let ready = opened(rt, alloc, structure, start, source)?;
    let Ok(told) = text_on(rt, alloc, ready, wanted, gate) else {
        return Err(NoText::NoMemory);
    };
    Ok(told)
}

/// Runs a trace with a placement on the structure of its kind.
///
/// # Errors
/// Those of `opened`.
fn text_over<P: Placement + Drop + Send + Sync, G: Gate + Sync, R: Threads + Wait + Sync>(
    rt: &R,
    alloc: Global,
    place: P,
    outset: Outset,
    wanted: Wanted,
    gate: &G,
) -> Result<(Vec<u8>, Told), NoText>
    requires outset { IsOutset outset }
    requires runs { RunsSource (structure_of outset.head.layout (P.place place)
        outset.head.layout.kind outset.start.free.items).meaning outset.start outset.source }
    ensures text { IfOk result (λ r. IsTextFrom outset.source wanted (told_by r.1) r.0.items) }
    ensures none { IfErr result (HasNoTextFrom outset.source) }
{
    recovered_opens();
    let Outset {
        head,
        start,
        source,
    } = outset;
    let layout = head.layout;
    let Ok(pool) = Pool::new(alloc, &start.free) else {
        return Err(NoText::NoMemory);
    };
    match layout.kind {
        Kind::List => {
            let list = List::new(layout, place, pool);
            text_from(rt, alloc, list, start, source, wanted, gate)
        }
        Kind::Hash => {
            let table = List::new(layout, place, pool);
            text_from(rt, alloc, table, start, source, wanted, gate)
        }
        Kind::Tree => {
            let tree = Tree::new(layout, place, pool);
            text_from(rt, alloc, tree, start, source, wanted, gate)
        }
    }
}

/// Runs a trace from its outset on, on the structure that it names.
///
/// # Errors
/// Those of `opened`.
pub(crate) fn text_from_outset<G: Gate + Sync, R: Threads + Wait + Sync>(
    rt: &R,
    alloc: Global,
    outset: Outset,
    wanted: Wanted,
    gate: &G,
) -> Result<(Vec<u8>, Told), NoText>
    requires { IsOutset outset }
    ensures text { IfOk result (λ r. IsTextFrom outset.source wanted (told_by r.1) r.0.items) }
    ensures none { IfErr result (HasNoTextFrom outset.source) }
{
    traces_run();
    heads_open();
    match outset.head.place {
        Place::Adjacent => text_over(rt, alloc, Adjacent, outset, wanted, gate),
        Place::Hashed(slots) => text_over(rt, alloc, Hashed { slots }, outset, wanted, gate),
        Place::Packed => text_over(rt, alloc, Packed, outset, wanted, gate),
        Place::Lines => unreachable!(),
    }
}
