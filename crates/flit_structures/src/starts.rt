ghost use Rattle.std.specs.Prelude.{◌≢◌, IfOk, IfErr};
ghost use Rattle.flit_words.specs.Layouts.{Accepted};
ghost use Rattle.flit_model.specs.Recovery.{IsRecovery};
ghost use Rattle.flit_structures.specs.Starts.{StartsSeen, StartsFresh, IsStartDamage};

use flit_recover::{Damage, Recovered, fresh, recover};
use flit_sched::recovered_opens;
use flit_trace::{Head, Trace, start_images};
use flit_words::NoMemory;
use std::alloc::Global;

/// What recovery finds in the fresh words of a head's layout: where a trace with this head and no start image starts. The
/// error is NoMemory alone.
pub fn fresh_start(alloc: Global, head: &Head) -> Result<Recovered, NoMemory>
    requires { Accepted head.now.layout }
    ensures recovery { IfOk result (λ start. IsRecovery head.now.layout start.image.words.items
        start.keys.items start.values.items start.free.items) }
    ensures starts { IfOk result (StartsFresh head.now) }
{
    fresh(alloc, &head.layout)
}

/// What recovery finds where a trace starts: in its start image, or in fresh words. An error is the first damage of the
/// start image, or NoMemory.
pub(crate) fn start_of(alloc: Global, trace: &Trace) -> Result<Recovered, Damage>
    ensures starts { IfOk result (StartsSeen trace.now) }
    ensures damage { IfErr result (λ d. d ≢ Damage.NoMemory → IsStartDamage trace.now d) }
{
    recovered_opens();
    start_images();
    match trace.start() {
        Some(image) => recover(alloc, image),
        None => match fresh_start(alloc, &trace.head()) {
            Ok(start) => Ok(start),
            Err(_) => Err(Damage::NoMemory),
        },
    }
}
