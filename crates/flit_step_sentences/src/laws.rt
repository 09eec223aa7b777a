ghost use Rattle.flit_step_sentences.specs.SayLaws.{LinesAreNumbered, ReportsSayHeadline};

use flit_model::one_recovery;
use flit_structure::Structure;

/// The report of the run of a trace says the headline: the completed calls that it prints stand in one legal history of one
/// map, each once, in the order of its worker's lines, beside at most one unfinished update of each worker; and recovery of the
/// words that a crash leaves finds the map after that history.
pub fn reports_say_headline<S: Structure>()
    ensures { (s : S) → ReportsSayHeadline (S.meaning s) }
{
    one_recovery();
}

/// Each line of a report is that of a call of its worker: the first is that of call 1, and so on.
pub fn lines_are_numbered()
    ensures { LinesAreNumbered }
{}
