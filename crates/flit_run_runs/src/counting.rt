ghost use Rattle.std.specs.Prelude.{◌<◌, ◌+◌, ◌++◌, ◌^◌, List, [], ◌∷◌, length};
ghost use Rattle.std.specs.List.{flat_map};
ghost use Rattle.flit_model.specs.declared.calls.Outcome.{Outcome as One_outcome};
ghost use Rattle.flit_run_runs.specs.Summaries.{CountsOutcomes};

use flit_model::Outcome;
use flit_step_runs::{Counts, no_lines, with_line};

/// These counts, and one outcome more.
fn with_outcome(counts: Counts, outcome: Outcome) -> Counts
    requires counts { (os : List One_outcome) × CountsOutcomes counts os }
    requires room { counts.calls < 2 ^ 32 }
    ensures { (os : List One_outcome) → CountsOutcomes counts os →
        CountsOutcomes result (os ++ outcome ∷ []) }
{
    with_line(counts, outcome)
}

/// These counts, and the outcomes of one worker more.
fn with_outcomes(counts: Counts, outcomes: &[Outcome]) -> Counts
    requires counts { (os : List One_outcome) × CountsOutcomes counts os }
    requires room { counts.calls + length outcomes.now < 2 ^ 32 }
    ensures { (os : List One_outcome) → CountsOutcomes counts os →
        CountsOutcomes result (os ++ outcomes.now) }
{
    let mut counted = counts;
    for outcome in outcomes {
        counted = with_outcome(counted, *outcome);
    }
    counted
}

/// The counts of the outcomes of all workers. Each call has one outcome, so these are the counts of the lines of the report.
pub(crate) fn counts_of_outcomes(outcomes: &[Vec<Outcome>]) -> Counts
    requires { length (flat_map (λ os. os.items) outcomes.now) < 2 ^ 32 }
    ensures { CountsOutcomes result (flat_map (λ os. os.items) outcomes.now) }
{
    let mut counts = no_lines();
    for own in outcomes {
        counts = with_outcomes(counts, own.as_slice());
    }
    counts
}
