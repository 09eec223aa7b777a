ghost use Rattle.std.specs.Prelude.{◌≡◌, ◌≢◌, Some, IfOk, IfErr, IfSome, ◌↔◌};
ghost use Rattle.flit_model.specs.Recovery.{layout_of, IsWhole};
ghost use Rattle.flit_commands.specs.declared.commands.Command.TheVariants.{Recover};
ghost use Rattle.flit_commands.specs.CommandWords.{said_by};
ghost use Rattle.flit_statuses.specs.Statuses.{WritesNothing};
ghost use Rattle.flit_statuses.specs.Reading.{LeavesInput, CountsReads};
ghost use Rattle.flit_statuses.specs.Writing.{CountsWrites};
ghost use Rattle.flit_statuses.specs.Answers.{IsOfBytes, Blames, WroteAnswer};
ghost use Rattle.flit_recover_command.specs.Recovering.{IsImageIn, IsRecoveryText, IsRecoveryOf, HasNoImage, HasNoRecovery};

use flit_commands::Words;
use flit_image::{Image, read_image};
use flit_outside::{Sink, Source};
use flit_recover::recover_owned;
use flit_report::recovery_text;
use flit_statuses::{Answering, Status, answer_input};
use std::alloc::Global;

#[cfg(test)]
mod tests;

/// The image whose text the bytes are. The text itself isn't kept.
fn image_of_text(alloc: Global, bytes: Vec<u8>) -> Result<Image, Status>
    ensures whole { IfOk result IsWhole }
    ensures image { IfOk result (IsImageIn bytes.items) }
    ensures fault { IfErr result (HasNoImage bytes.items) }
{
    Ok(read_image(alloc, &bytes)?)
}

/// What the image recovers to, as a text.
fn recovery_of_image(alloc: Global, image: Image) -> Result<Vec<u8>, Status>
    requires { IsWhole image }
    ensures text { IfOk result (λ text.
        IsRecoveryText (layout_of image) image.words.items text.items) }
    ensures fault { IfErr result (HasNoRecovery (layout_of image) image.words.items) }
{
    let valued = image.values;
    let found = recover_owned(alloc, image)?;
    Ok(recovery_text(alloc, valued, &found.keys, &found.values, &found.free)?)
}

/// The recovery of an image.
struct Recovery;

impl Answering for Recovery {
    ghost use Rattle.flit_recover_command.specs.Recovering.{IsRecoveryOf, HasNoImage};

    ghost IsAnswer = { λ _ bytes text. IsRecoveryOf bytes text };

    ghost HasNone = { HasNoImage };

    fn answer(&self, alloc: Global, input: Vec<u8>) -> Result<Vec<u8>, Status>
        ensures answer { IfOk result (λ text. IsRecoveryOf input.items text.items) }
        ensures kind { IfErr result IsOfBytes }
        ensures none { IfErr result (HasNoImage input.items) }
    {
        let image = image_of_text(alloc, input)?;
        recovery_of_image(alloc, image)
    }
}

/// The command `recover`: reads the text of an image, and writes the keys of its map, for an image with values their
/// values, and the rows that no link reaches.
///
/// Usage comes first, before anything is read and with no memory taken; then ReadFault, the limit on bytes, BadImage
/// (a fault of the text, then a damage of the image) and WriteFault. NoMemory may come in the place of each status but
/// Usage.
pub fn flit_recover<S: Source, K: Sink>(
    alloc: Global,
    words: &Words,
    source: &mut S,
    sink: &mut K,
) -> Status
    ensures usage { (result ≡ Status.Usage) ↔ (words.now ≢ said_by Recover) }
    ensures unread { result ≡ Status.Usage → source.new ≡ source.old }

    // With the clause wrote: BadImage comes exactly where the bytes are no text of a lawful image.
    ensures blames { Blames HasNoImage result (S.left source.old) }
    ensures leaves { IfSome (S.left source.old) (LeavesInput result (S.left source.new)) }
    ensures read_faults { CountsReads result (S.faults source.old) (S.faults source.new) }

    ensures wrote { WroteAnswer IsRecoveryOf result (S.left source.old)
        (K.taken sink.old) (K.taken sink.new) }
    ensures write_faults { CountsWrites result (K.faults sink.old) (K.faults sink.new) }
    ensures unwritten { WritesNothing result → sink.new ≡ sink.old }
{
    if !words.is(&["recover"]) {
        return Status::Usage;
    }
    answer_input(&Recovery, alloc, source, sink)
}
