ghost use Rattle.std.specs.Prelude.{◌≡◌, ◌≢◌, ◌↔◌, IsSome};
ghost use Rattle.flit_commands.specs.CommandWords.{said_by, IsCommand};
ghost use Rattle.flit_statuses.specs.Statuses.{WritesNothing};
ghost use Rattle.flit_statuses.specs.Reading.{CountsReads};
ghost use Rattle.flit_statuses.specs.Writing.{CountsWrites};
ghost use Rattle.flit_cli.specs.Dispatch.{IsBuilt, NamesNoneBuilt, Reads, NamesNoReader, NamesRun, OfNamed, BlamesFor, LeavesFor, WroteFor, TellsFor};

use flit_commands::{Command, Words, command_of};
use flit_make_command::flit_make;
use flit_outside::{Sink, Source};
use flit_recover_command::flit_recover;
use flit_run_command::{Ended, flit_run};
use flit_statuses::Status;
use flit_step_command::flit_step;
use flit_workers::NoGate;
use std::alloc::Global;
use std::sync::Wait;
use std::thread::Threads;

/// Runs the command that the words name.
fn run_command<S: Source, K: Sink, R: Threads + Wait + Sync>(
    rt: &R,
    alloc: Global,
    command: Command,
    words: &Words,
    source: &mut S,
    sink: &mut K,
) -> Ended
    requires can { IsCommand command }
    requires named { words.now ≡ said_by command }
    ensures usage { (result.status ≡ Status.Usage) ↔ (¬ IsBuilt command) }
    ensures unread { (¬ Reads command) → source.new ≡ source.old }
    ensures blames { BlamesFor result.status (S.left source.old) command }
    ensures leaves { LeavesFor result.status (S.left source.old) (S.left source.new) command }
    ensures read_faults { CountsReads result.status (S.faults source.old) (S.faults source.new) }
    ensures wrote { WroteFor result words.now (S.left source.old)
        (K.taken sink.old) (K.taken sink.new) command }
    ensures tells { TellsFor result command }
    ensures write_faults { CountsWrites result.status (K.faults sink.old) (K.faults sink.new) }
    ensures unwritten { WritesNothing result.status → sink.new ≡ sink.old }
{
    match command {
        Command::Run(_) => flit_run(rt, alloc, words, source, sink, &NoGate),
        Command::Step(_) => Ended {
            status: flit_step(alloc, words, source, sink),
            told: None,
        },
        Command::Recover => Ended {
            status: flit_recover(alloc, words, source, sink),
            told: None,
        },
        Command::Make(_) => Ended {
            status: flit_make(alloc, words, source, sink),
            told: None,
        },
        Command::Queue => Ended {
            status: Status::Usage,
            told: None,
        },
        Command::Check => Ended {
            status: Status::Usage,
            told: None,
        },
    }
}

/// Runs the command that the words name: it gives what that command's call gives, with `NoGate` for `run`.
///
/// Usage comes for all words that name none, and for the commands that aren't built yet: `queue`, `check`, and
/// `step --detect`. Nothing is read then, and no memory is taken.
pub fn flit<S: Source, K: Sink, R: Threads + Wait + Sync>(
    rt: &R,
    alloc: Global,
    words: &Words,
    source: &mut S,
    sink: &mut K,
) -> Ended
    ensures usage { (result.status ≡ Status.Usage) ↔ NamesNoneBuilt words.now }
    ensures unread { NamesNoReader words.now → source.new ≡ source.old }
    ensures blames { OfNamed words.now (BlamesFor result.status (S.left source.old)) }
    ensures leaves { OfNamed words.now
        (LeavesFor result.status (S.left source.old) (S.left source.new)) }
    ensures read_faults { CountsReads result.status (S.faults source.old) (S.faults source.new) }

    ensures wrote { OfNamed words.now
        (WroteFor result words.now (S.left source.old) (K.taken sink.old) (K.taken sink.new)) }

    // A run is told of exactly where the words are those of `run` and its text was written, the
    // whole of it at Done or a front at WriteFault.
    ensures told { IsSome result.told ↔ (NamesRun words.now × (¬ WritesNothing result.status)) }
    ensures write_faults { CountsWrites result.status (K.faults sink.old) (K.faults sink.new) }
    ensures unwritten { WritesNothing result.status → sink.new ≡ sink.old }
{
    match command_of(words) {
        Some(command) => run_command(rt, alloc, command, words, source, sink),
        None => Ended {
            status: Status::Usage,
            told: None,
        },
    }
}
