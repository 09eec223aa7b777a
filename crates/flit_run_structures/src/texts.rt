ghost use Rattle.std.specs.Prelude.{IfOk, IfErr};
ghost use Rattle.flit_table.specs.Closing.{told_by};
ghost use Rattle.flit_structures.specs.Texts.{HasNoText};
ghost use Rattle.flit_run_structures.specs.Texts.{IsTextOfRun};

use crate::placed::text_from_outset;
use crate::runs::Wanted;
use crate::sources::outset_of;
use flit_structures::NoText;
use flit_table::Told;
use flit_workers::Gate;
use std::alloc::Global;
use std::sync::Wait;
use std::thread::Threads;

/// Runs the trace that the bytes are on the structure that it names, each worker in a thread of its own, and tells the gate
/// of each call: the text that is wanted of the run, and what was told as the structure was closed. Turn lines and ahead
/// lines play no part. Where the first lines tell the structure, it is opened while the others are read. The bytes are let
/// go before the run. NoMemory may come in the place of each other error.
pub fn text_of_run<G: Gate + Sync, R: Threads + Wait + Sync>(
    rt: &R,
    alloc: Global,
    bytes: Vec<u8>,
    wanted: Wanted,
    gate: &G,
) -> Result<(Vec<u8>, Told), NoText>
    ensures text { IfOk result (λ r. IsTextOfRun bytes.items wanted (told_by r.1) r.0.items) }
    ensures none { IfErr result (HasNoText bytes.items) }
{
    let outset = outset_of(alloc, bytes)?;
    text_from_outset(rt, alloc, outset, wanted, gate)
}
