ghost use Rattle.flit_step_reports.specs.StepLaws.{PlansAreRuns};

use flit_headline::runs_keep_headline;
use flit_structure::Structure;

/// The turns of a trace's lines, given from an opening on, are a run of the trace, which keeps the headline. At its end
/// each worker is out: without a stop it has done all its items, with one it has made as many events as this says, or fewer
/// where it has done all its items.
pub fn plans_are_runs<S: Structure>()
    ensures { (s : S) → PlansAreRuns (S.meaning s) }
{
    runs_keep_headline::<S>();
}
