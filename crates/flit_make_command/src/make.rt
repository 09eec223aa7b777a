ghost use Rattle.std.specs.Prelude.{◌≡◌, ◌↔◌};
ghost use Rattle.flit_commands.specs.CommandWords.{NamesNoMaking};
ghost use Rattle.flit_statuses.specs.Statuses.{WritesNothing};
ghost use Rattle.flit_statuses.specs.Writing.{CountsWrites};
ghost use Rattle.flit_make_command.specs.Making.{WroteMade, EndsMake};

use flit_commands::{Words, making_of};
use flit_generator::generator_text;
use flit_outside::{Sink, Source};
use flit_statuses::{Status, write_output};
use std::alloc::Global;

#[cfg(test)]
mod tests;

/// The command `make SEED CALLS KEYS WORKERS`: writes the trace that the generator makes of these numbers. The source is
/// not read.
///
/// SEED is at most 2147483647, CALLS are 1 to 500000, KEYS 1 to 32768 and WORKERS 1 to 64. Usage comes first, with no
/// memory taken, for all other words; then WriteFault, where a write failed. NoMemory may come in the place of each status
/// but Usage.
pub fn flit_make<S: Source, K: Sink>(
    alloc: Global,
    words: &Words,
    source: &mut S,
    sink: &mut K,
) -> Status
    ensures usage { (result ≡ Status.Usage) ↔ NamesNoMaking words.now }
    ensures unread { source.new ≡ source.old }
    ensures wrote { WroteMade result words.now (K.taken sink.old) (K.taken sink.new) }
    ensures write_faults { CountsWrites result (K.faults sink.old) (K.faults sink.new) }
    ensures unwritten { WritesNothing result → sink.new ≡ sink.old }
    ensures only { EndsMake result }
{
    let Some(making) = making_of(words) else {
        return Status::Usage;
    };
    let Ok(text) = generator_text(
        alloc,
        making.seed,
        making.calls,
        making.keys,
        making.workers,
    ) else {
        return Status::NoMemory;
    };
    write_output(sink, &text)
}
