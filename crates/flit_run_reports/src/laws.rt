ghost use Rattle.flit_table.specs.declared.views.Origin.{Origin as An_origin};
ghost use Rattle.flit_run_reports.specs.RunLaws.{PromisesTellTraces};

use flit_structure::Structure;

/// Where the works of a trace were run on threads, and what is told keeps all promises with an image that takes no value
/// ahead, what is told is of a run of the trace; and the outcomes of each worker are the replies that are told under its name,
/// and then Stopped.
pub fn promises_tell_traces<S: Structure>()
    ensures { (s : S) (o : An_origin S) → PromisesTellTraces (S.meaning s) o }
{}
