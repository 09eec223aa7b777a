ghost use Rattle.std.specs.Prelude.{◌≡◌, ◌≢◌, ◌≤◌, ℕ, List, [], Some, IfOk, IfErr, IfSome, OnOk};
ghost use Rattle.flit_statuses.specs.declared.status.Status.{Status};
ghost use Rattle.flit_statuses.specs.Statuses.{WritesNothing};
ghost use Rattle.flit_statuses.specs.Reading.{LeavesInput, CountsReads, StopsBefore};
ghost use Rattle.flit_statuses.specs.Writing.{WroteAt, CountsWrites};
ghost use Rattle.flit_statuses.specs.Answers.{IsOfBytes, Blames, AnswersInput, WroteAnswer};

use crate::status::Status;
use flit_outside::{Sink, Source, read_input, write_all};
use std::alloc::Global;

/// A command that reads an input and answers it by a text, with what it needs to do so.
pub trait Answering {
    // The text answers an input of these bytes.
    ghost IsAnswer: { Self → List ℕ → List ℕ → Type 0 };

    // An input of these bytes has no answer, for the reason that the status is.
    ghost HasNone: { List ℕ → Status → Type 0 };

    /// The text that answers the input.
    ///
    /// # Errors
    /// The status that says why there is none.
    fn answer(&self, alloc: Global, input: Vec<u8>) -> Result<Vec<u8>, Status>
        ensures answer { IfOk result (λ text. IsAnswer self.now input.items text.items) }
        ensures kind { IfErr result IsOfBytes }
        ensures none { IfErr result (HasNone input.items) };
}

/// The answer of the input that the source has.
fn answer_of_source<A: Answering, S: Source>(
    answering: &A,
    alloc: Global,
    source: &mut S,
) -> Result<Vec<u8>, Status>
    ensures text { IfOk result (λ text.
        AnswersInput (A.IsAnswer answering.now) (S.left source.old) text.items) }
    ensures ended { OnOk result (IfSome (S.left source.old) (λ _. S.left source.new ≡ Some [])) }
    ensures steady { OnOk result (S.faults source.new ≡ S.faults source.old) }
    ensures stops { IfErr result StopsBefore }
    ensures blames { IfErr result (λ status. Blames A.HasNone status (S.left source.old)) }
    ensures leaves { IfErr result (λ status.
        IfSome (S.left source.old) (LeavesInput status (S.left source.new))) }
    ensures read_faults { IfErr result (λ status.
        CountsReads status (S.faults source.old) (S.faults source.new)) }
{
    let input = read_input(alloc, source)?;
    answering.answer(alloc, input)
}

/// Writes a text, and answers how that ended.
pub fn write_output<K: Sink>(sink: &mut K, text: &[u8]) -> Status
    ensures wrote { WroteAt result (λ output. output ≡ text.now)
        (K.taken sink.old) (K.taken sink.new) }
    ensures write_faults { CountsWrites result (K.faults sink.old) (K.faults sink.new) }
    ensures only { (result ≢ Status.Done) → result ≡ Status.WriteFault }
{
    match write_all(sink, text) {
        Ok(()) => Status::Done,
        Err(_failed) => Status::WriteFault,
    }
}

/// Reads the input, and writes the text that answers it.
///
/// ReadFault comes first, then the limit on bytes (Limit at line 0), why there is no answer, and WriteFault. NoMemory may
/// come in the place of each.
pub fn answer_input<A: Answering, S: Source, K: Sink>(
    answering: &A,
    alloc: Global,
    source: &mut S,
    sink: &mut K,
) -> Status
    ensures runs { result ≢ Status.Usage }
    ensures blames { Blames A.HasNone result (S.left source.old) }
    ensures leaves { IfSome (S.left source.old) (LeavesInput result (S.left source.new)) }
    ensures read_faults { CountsReads result (S.faults source.old) (S.faults source.new) }
    ensures wrote { WroteAnswer (A.IsAnswer answering.now) result
        (S.left source.old) (K.taken sink.old) (K.taken sink.new) }
    ensures write_faults { CountsWrites result (K.faults sink.old) (K.faults sink.new) }
    ensures unwritten { WritesNothing result → sink.new ≡ sink.old }
{
    match answer_of_source(answering, alloc, source) {
        Ok(text) => write_output(sink, &text),
        Err(status) => status,
    }
}
