ghost use Rattle.flit_table.specs.declared.views.Origin.{Origin as An_origin};
ghost use Rattle.flit_thread_histories.specs.Promises.{EndsInOrder, OneWorkerQueuesNothing, ThreadsKeepPromises};
ghost use Rattle.flit_thread_histories.specs.Reports.{PromisesTellRuns};

use flit_structure::Structure;

/// Workers that began as a structure was opened, each through a pass of one name: at their ends, whether they have made
/// events or none, the completed calls of each name of a pass stand in what it has seen, each once and in order.
pub fn ends_in_order<S: Structure>()
    ensures { EndsInOrder S.meaning }
{}

/// Works that were made from the opening on, by a worker in a thread of its own each, whose passes were gathered and
/// closed: what is told of them keeps all promises, for each choice of words of which the image takes the value ahead. One
/// legal history, with each completed call once, in the order of its worker, and at most one unfinished update of each
/// worker; an image in which recovery finds its map; outcomes, items and events as each Work says; replies within their
/// bounds.
pub fn threads_keep_promises<S: Structure>()
    ensures { ThreadsKeepPromises S.meaning }
{}

/// With one worker nothing was queued: the tally of its pass says so at its end, and that of each worker that the gathered
/// pass had as it was closed.
pub fn one_worker_queues_nothing<S: Structure>()
    ensures { OneWorkerQueuesNothing S.meaning }
{}

/// Where the image takes no value ahead, each sentence of a report is told apart: the map that recovery finds is that after
/// the history; a worker without a stop has made all its items and none of its calls was stopped; one with a stop has made
/// as many events as its stop says, or fewer and all its items; and each Full and each Worn has its bound.
pub fn promises_tell_runs<S: Structure>()
    ensures { (s : S) (o : An_origin S) → PromisesTellRuns (S.meaning s) o }
{}
