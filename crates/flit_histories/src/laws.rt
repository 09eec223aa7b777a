ghost use Rattle.flit_histories.specs.Laws.{RunsAreRight, CallsStandOnce, UpdatesWereWon, OrderIsKept};
ghost use Rattle.flit_histories.specs.Promises.{TurnsKeepPromises};
ghost use Rattle.flit_histories.specs.TurnLaws.{TurnsLead, HistoriesStay, TurnsOrderCalls};

use flit_structure::Structure;

/// A run that is reached is at a moment that holds. Its settled updates are legal from the map at the start, and each
/// completed read is right at its position. So for each choice of words the history is legal, and recovery finds its map
/// in the crash image that takes the values ahead of these words.
pub fn runs_are_right<S: Structure>()
    ensures { (s : S) → RunsAreRight (S.meaning s) }
{}

/// A call among a worker's items has an outcome: its reply where it is below the number of items that are over, and else
/// Stopped. Where it has its reply, the history has its entry just once if it is an
/// update or a completed read, and else not, as after a reply Full or Worn. Where it was stopped, the history has nothing
/// of it; but for the call that the worker is at, which may have its update, once. An Evict has no outcome. And each entry
/// of the history is of a call among the items of the worker that it names.
pub fn calls_stand_once<S: Structure>()
    ensures { (s : S) → CallsStandOnce (S.meaning s) }
{}

/// Each update that is settled or waits was made by a turn: an Exchange that found what it expected, by which its call
/// takes effect.
pub fn updates_were_won<S: Structure>()
    ensures { (s : S) → UpdatesWereWon (S.meaning s) }
{}

/// A call that was over before another began stands before it. The update of a call that is over at a run is among the
/// updates settled there, and does not wait later; the position of its read is not behind them. The update of a call
/// that has not begun there stands behind them, and so does its read, or just at their end. So in each history of each
/// later run an entry of the first call stands before an entry of the second, or both are reads of one position. Two
/// entries of one worker stand in the order of their numbers.
pub fn order_is_kept<S: Structure>()
    ensures { (s : S) → OrderIsKept (S.meaning s) }
{}

/// Turns that are given one after another compose and can be parted. What holds of each run that is reached holds after
/// them: the map at the start stays, settled updates stay settled, and the workers stay, each with its items and with the
/// outcomes of those that are over. A worker that is out stays so.
pub fn turns_lead<S: Structure>()
    ensures { (s : S) → TurnsLead (S.meaning s) }
{}

/// What came of a call that is over stays: each later history has of it what the history had of it then. Placed reads stay
/// placed.
pub fn histories_stay<S: Structure>()
    ensures { (s : S) → HistoriesStay (S.meaning s) }
{}

/// A call that gets its reply by an earlier turn than that by which another makes its first event stands before it in
/// each later history, or both are reads of one position.
pub fn turns_order_calls<S: Structure>()
    ensures { (s : S) → TurnsOrderCalls (S.meaning s) }
{}

/// Turns that are given from an opening on, to any workers in any order, lead to a run that keeps all promises, for each
/// choice of words of which a crash takes the value ahead: one legal history, with each completed call once, in the order
/// that its caller had seen, and at most one unfinished update of each worker; an image in which recovery finds its map;
/// replies, searches, tries and what is queued within their bounds.
pub fn turns_keep_promises<S: Structure>()
    ensures { (s : S) → TurnsKeepPromises (S.meaning s) }
{}
