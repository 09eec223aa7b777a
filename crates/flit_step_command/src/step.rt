ghost use Rattle.std.specs.Prelude.{◌≡◌, ◌⊎◌, ◌↔◌, Some, IfOk, IfErr, IfSome, IfNone};
ghost use Rattle.flit_commands.specs.declared.commands.Command.TheVariants.{Step};
ghost use Rattle.flit_commands.specs.declared.commands.StepOption.TheVariants.{Detect};
ghost use Rattle.flit_commands.specs.CommandWords.{said_by};
ghost use Rattle.flit_statuses.specs.Statuses.{WritesNothing};
ghost use Rattle.flit_statuses.specs.Reading.{LeavesInput, CountsReads};
ghost use Rattle.flit_statuses.specs.Writing.{CountsWrites};
ghost use Rattle.flit_statuses.specs.Answers.{IsOfBytes, Blames};
ghost use Rattle.flit_structures.specs.Refusals.{HasNoReport};
ghost use Rattle.flit_structures.specs.RightTraces.{CanComplete};
ghost use Rattle.flit_structures.specs.Texts.{IsTextOf};
ghost use Rattle.flit_step_command.specs.Stepping.{words_for, NamesNoStep, WroteWanted};

use flit_commands::Words;
use flit_outside::{Sink, Source};
use flit_statuses::{Answering, Status, answer_input};
use flit_structures::{Wanted, right_traces_are_answered, text_of_trace};
use std::alloc::Global;

#[cfg(test)]
mod tests;

/// What the words want of `step`. None comes where they are other words, and for `step --detect`, which isn't there yet. It
/// takes no memory.
fn wanted_by(words: &Words) -> Option<Wanted>
    ensures some { IfSome result (λ wanted. words.now ≡ words_for wanted) }
    ensures none { IfNone result (NamesNoStep words.now) }
{
    if words.is(&["step"]) {
        Some(Wanted::Report)
    } else if words.is(&["step", "--events"]) {
        Some(Wanted::Events)
    } else if words.is(&["step", "--summary"]) {
        Some(Wanted::Summary)
    } else if words.is(&["step", "--image"]) {
        Some(Wanted::Image)
    } else {
        None
    }
}

/// What is wanted of the trace that the bytes are.
fn text_of_bytes(alloc: Global, bytes: Vec<u8>, wanted: Wanted) -> Result<Vec<u8>, Status>
    ensures text { IfOk result (λ text. IsTextOf bytes.items wanted text.items) }
    ensures kind { IfErr result IsOfBytes }
    ensures none { IfErr result (HasNoReport bytes.items) }
{
    let text = text_of_trace(alloc, bytes, wanted)?;
    Ok(text)
}

/// The command, with what its words want.
#[derive(Clone, Copy)]
struct Stepping {
    wanted: Wanted,
}

impl Answering for Stepping {
    ghost use Rattle.flit_structures.specs.Refusals.{HasNoReport};
    ghost use Rattle.flit_structures.specs.Texts.{IsTextOf};

    ghost IsAnswer = { λ stepping bytes text. IsTextOf bytes stepping.wanted text };

    ghost HasNone = { HasNoReport };

    fn answer(&self, alloc: Global, input: Vec<u8>) -> Result<Vec<u8>, Status>
        ensures answer { IfOk result (λ text. IsTextOf input.items self.now.wanted text.items) }
        ensures kind { IfErr result IsOfBytes }
        ensures none { IfErr result (HasNoReport input.items) }
    {
        text_of_bytes(alloc, input, self.wanted)
    }
}

/// The command `step`: reads a trace, plays it turn by turn on the structure that it names, and writes the report; with
/// `--events` a line for each event before it, with `--summary` six counts in its place, and with `--image` the text of the
/// image that a crash leaves at the end.
///
/// Usage comes first, before anything is read and with no memory taken; then ReadFault, the limit on bytes (Limit at line
/// 0), the first fault of the trace with its line (BadTrace or Limit), BadTrace at line 0 for a right trace with one
/// counter for each line of eight words, which isn't played yet, the first damage of the start image (BadImage), and
/// WriteFault. NoMemory may come in the place of each status but Usage. The words `step --detect` are answered Usage until
/// that option is there.
pub fn flit_step<S: Source, K: Sink>(
    alloc: Global,
    words: &Words,
    source: &mut S,
    sink: &mut K,
) -> Status
    ensures usage { (result ≡ Status.Usage) ↔ NamesNoStep words.now }
    ensures detect { words.now ≡ said_by (Step (Some Detect)) → result ≡ Status.Usage }
    ensures unread { result ≡ Status.Usage → source.new ≡ source.old }

    // With the clause wrote: BadTrace, Limit and BadImage come exactly where this is the first fault
    // of the bytes, and BadTrace at line 0 exactly where they are a trace that isn't played.
    ensures blames { Blames HasNoReport result (S.left source.old) }
    ensures leaves { IfSome (S.left source.old) (LeavesInput result (S.left source.new)) }
    ensures read_faults { CountsReads result (S.faults source.old) (S.faults source.new) }

    ensures wrote { WroteWanted result words.now (S.left source.old)
        (K.taken sink.old) (K.taken sink.new) }
    ensures write_faults { CountsWrites result (K.faults sink.old) (K.faults sink.new) }
    ensures unwritten { WritesNothing result → sink.new ≡ sink.old }

    ensures completes { CanComplete words_for words.now (S.left source.old)
        (S.faults source.old) (S.faults source.new) (K.faults sink.old) (K.faults sink.new)
        → (result ≡ Status.Done) ⊎ (result ≡ Status.NoMemory) }
{
    right_traces_are_answered();
    let Some(wanted) = wanted_by(words) else {
        return Status::Usage;
    };
    answer_input(&Stepping { wanted }, alloc, source, sink)
}
