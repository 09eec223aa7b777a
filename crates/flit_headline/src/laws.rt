ghost use Rattle.flit_headline.specs.Sentences.{HeadlineIsKept};

use flit_histories::turns_keep_promises;
use flit_structure::Structure;

/// For every list of turns that is given from an opening on, and each choice of words of which a crash takes the value
/// ahead: the completed calls stand in one legal history, each once, in the order that its caller had seen; an image of the
/// words that a crash leaves has the map after that history, which holds beside them at most one unfinished update of each
/// worker.
pub fn runs_keep_headline<S: Structure>()
    ensures { (s : S) → HeadlineIsKept (S.meaning s) }
{
    turns_keep_promises::<S>();
}
