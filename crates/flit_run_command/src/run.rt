ghost use Rattle.std.specs.Prelude.{◌≡◌, ◌≢◌, ◌⊎◌, ◌↔◌, [], Some, IsNone, IfSome, IfNone, IfOk, IfErr, OnOk};
ghost use Rattle.flit_statuses.specs.Statuses.{WritesNothing};
ghost use Rattle.flit_statuses.specs.Reading.{LeavesInput, CountsReads, StopsBefore};
ghost use Rattle.flit_statuses.specs.Writing.{CountsWrites};
ghost use Rattle.flit_statuses.specs.Answers.{IsOfBytes, Blames, AnswersInput, WroteAnswer};
ghost use Rattle.flit_structures.specs.Refusals.{HasNoReport};
ghost use Rattle.flit_structures.specs.RightTraces.{CanComplete};
ghost use Rattle.flit_run_command.specs.Running.{words_for, NamesNoRun, IsTextWithTold, IsAnswerWith, WroteRun};

use flit_commands::Words;
use flit_outside::{Sink, Source, read_input};
use flit_run_structures::{Wanted, text_of_run};
use flit_statuses::{Status, write_output};
use flit_structures::right_traces_are_answered;
use flit_table::Told;
use flit_workers::Gate;
use std::alloc::Global;
use std::sync::Wait;
use std::thread::Threads;

#[cfg(test)]
mod stop_tests;
#[cfg(test)]
mod tests;

/// How a command ended, and what is told of a run.
#[derive(Drop)]
pub struct Ended {
    pub status: Status,
    /// What was told as the structure of a run was closed.
    pub told: Option<Told>,
}

/// What is wanted of a run of the trace that an input is, which isn't kept, and what is told of the run.
fn told_of_input<G: Gate + Sync, R: Threads + Wait + Sync>(
    rt: &R,
    alloc: Global,
    input: Vec<u8>,
    wanted: Wanted,
    gate: &G,
) -> Result<(Vec<u8>, Told), Status>
    ensures text { IfOk result (λ a. IsTextWithTold wanted input.items a.1 a.0.items) }
    ensures kind { IfErr result IsOfBytes }
    ensures none { IfErr result (HasNoReport input.items) }
{
    let told = text_of_run(rt, alloc, input, wanted, gate)?;
    Ok(told)
}

/// The same of the input that the source has.
fn told_of_source<S: Source, G: Gate + Sync, R: Threads + Wait + Sync>(
    rt: &R,
    alloc: Global,
    source: &mut S,
    wanted: Wanted,
    gate: &G,
) -> Result<(Vec<u8>, Told), Status>
    ensures text { IfOk result (λ a. AnswersInput
        (λ bytes text. IsTextWithTold wanted bytes a.1 text) (S.left source.old) a.0.items) }
    ensures ended { OnOk result (IfSome (S.left source.old) (λ _. S.left source.new ≡ Some [])) }
    ensures steady { OnOk result (S.faults source.new ≡ S.faults source.old) }
    ensures stops { IfErr result StopsBefore }
    ensures blames { IfErr result (λ status. Blames HasNoReport status (S.left source.old)) }
    ensures leaves { IfErr result (λ status.
        IfSome (S.left source.old) (LeavesInput status (S.left source.new))) }
    ensures read_faults { IfErr result (λ status.
        CountsReads status (S.faults source.old) (S.faults source.new)) }
{
    let input = read_input(alloc, source)?;
    told_of_input(rt, alloc, input, wanted, gate)
}

/// Reads the input, runs it, and writes what is wanted of the run. What is told of the run is handed out where the text was
/// written, the whole of it or a front.
fn run_input<S: Source, K: Sink, G: Gate + Sync, R: Threads + Wait + Sync>(
    rt: &R,
    alloc: Global,
    source: &mut S,
    sink: &mut K,
    wanted: Wanted,
    gate: &G,
) -> Ended
    ensures runs { result.status ≢ Status.Usage }
    ensures blames { Blames HasNoReport result.status (S.left source.old) }
    ensures leaves { IfSome (S.left source.old) (LeavesInput result.status (S.left source.new)) }
    ensures read_faults { CountsReads result.status (S.faults source.old) (S.faults source.new) }
    ensures wrote { WroteAnswer (IsAnswerWith wanted result.told) result.status
        (S.left source.old) (K.taken sink.old) (K.taken sink.new) }
    ensures told { IsNone result.told ↔ WritesNothing result.status }
    ensures write_faults { CountsWrites result.status (K.faults sink.old) (K.faults sink.new) }
    ensures unwritten { WritesNothing result.status → sink.new ≡ sink.old }
{
    match told_of_source(rt, alloc, source, wanted, gate) {
        Ok((text, told)) => Ended {
            status: write_output(sink, &text),
            told: Some(told),
        },
        Err(status) => Ended { status, told: None },
    }
}

/// What the words want of `run`. None comes where they are other words. It takes no memory.
fn wanted_by(words: &Words) -> Option<Wanted>
    ensures some { IfSome result (λ wanted. words.now ≡ words_for wanted) }
    ensures none { IfNone result (NamesNoRun words.now) }
{
    if words.is(&["run"]) {
        Some(Wanted::Report)
    } else if words.is(&["run", "--summary"]) {
        Some(Wanted::Summary)
    } else if words.is(&["run", "--image"]) {
        Some(Wanted::Image)
    } else {
        None
    }
}

/// The command `run`: reads a trace, runs its workers on threads, each call between the gate's `before` and `after`, and
/// writes the report of the run; with `--summary` six counts in its place, with `--image` the text of the image.
///
/// Usage comes first, before anything is read and with no memory taken; then ReadFault, the limit on bytes (Limit at line
/// 0), the first fault of the trace with its line (BadTrace or Limit), BadImage (the first damage of a start image) and
/// WriteFault. NoMemory may come in the place of each status but Usage.
pub fn flit_run<S: Source, K: Sink, G: Gate + Sync, R: Threads + Wait + Sync>(
    rt: &R,
    alloc: Global,
    words: &Words,
    source: &mut S,
    sink: &mut K,
    gate: &G,
) -> Ended
    ensures usage { (result.status ≡ Status.Usage) ↔ NamesNoRun words.now }
    ensures unread { result.status ≡ Status.Usage → source.new ≡ source.old }

    // With the clause wrote: BadTrace, Limit and BadImage come exactly where the bytes are no trace,
    // past a limit, or a trace whose start image isn't lawful.
    ensures blames { Blames HasNoReport result.status (S.left source.old) }
    ensures leaves { IfSome (S.left source.old) (LeavesInput result.status (S.left source.new)) }
    ensures read_faults { CountsReads result.status (S.faults source.old) (S.faults source.new) }

    // The text that was written and what is told are of one run.
    ensures wrote { WroteRun result words.now (S.left source.old)
        (K.taken sink.old) (K.taken sink.new) }
    ensures told { IsNone result.told ↔ WritesNothing result.status }
    ensures write_faults { CountsWrites result.status (K.faults sink.old) (K.faults sink.new) }
    ensures unwritten { WritesNothing result.status → sink.new ≡ sink.old }

    ensures completes { CanComplete words_for words.now (S.left source.old)
        (S.faults source.old) (S.faults source.new) (K.faults sink.old) (K.faults sink.new)
        → (result.status ≡ Status.Done) ⊎ (result.status ≡ Status.NoMemory) }
{
    right_traces_are_answered();
    let Some(wanted) = wanted_by(words) else {
        return Ended {
            status: Status::Usage,
            told: None,
        };
    };
    run_input(rt, alloc, source, sink, wanted, gate)
}
