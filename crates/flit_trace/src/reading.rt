ghost use Rattle.std.specs.Prelude.{◌≡◌, ◌≤◌, length, IfOk, IfErr, OnOk};
ghost use Rattle.std.specs.Str.{IsAscii};
ghost use Rattle.flit_words.specs.Texts.{lines_of};
ghost use Rattle.flit_words.specs.declared.limits.TheConstants.{MOST_WORKERS};
ghost use Rattle.flit_trace.specs.Contents.{Contents};
ghost use Rattle.flit_trace.specs.Drafts.{IsSound};
ghost use Rattle.flit_trace.specs.Grammar.{is_silent, IsErrorOf};
ghost use Rattle.flit_trace.specs.SeenTraces.{IsReadAs};
ghost use Rattle.flit_trace.specs.declared.faults.TraceError.TheVariants.{BadLine};
ghost use Rattle.flit_trace.specs.Readings.{LeadsTo, IsLineError, AreRead, AreFaulty};

use crate::drafts::Draft;
use crate::faults::{Bound, TraceError};
use crate::index::Index;
use crate::sentences::sentence_of;
use crate::traces::Trace;
use flit_words::{MOST_BYTES, first_line};
use std::alloc::Global;

/// Whether a line says nothing.
pub(crate) fn says_nothing(line: &[u8]) -> bool
    ensures { result ≡ is_silent line.now }
{
    match line.first() {
        Some(byte) => *byte == b'#',
        None => true,
    }
}

/// Takes a line that says nothing.
fn silent_line(number: u32, line: &[u8]) -> Result<(), TraceError>
    ensures ok { OnOk result (IsAscii line.now) }
    ensures err { IfErr result (λ e. (e ≡ BadLine number) × ¬ IsAscii line.now) }
{
    if line.is_ascii() {
        Ok(())
    } else {
        Err(TraceError::BadLine { line: number })
    }
}

/// Takes the line of this number.
fn take_line(
    draft: &mut Draft,
    index: &mut Index,
    number: u32,
    line: &[u8],
) -> Result<(), TraceError>
    requires sound { IsSound draft.old }
    requires whole { length index.old.scripts.items ≡ MOST_WORKERS }
    ensures sound { OnOk result (IsSound draft.new) }
    ensures whole { OnOk result (length index.new.scripts.items ≡ MOST_WORKERS) }
    ensures leads { OnOk result ((t : Contents) →
        LeadsTo number draft.old index.old t line.now draft.new index.new) }
    ensures err { IfErr result (IsLineError number draft.old line.now) }
{
    if draft.stage.is_ended() {
        return Err(TraceError::BadLine { line: number });
    }
    // A line that says something is spelled in ASCII.
    if says_nothing(line) {
        return silent_line(number, line);
    }
    let Some(sentence) = sentence_of(line) else {
        return Err(TraceError::BadLine { line: number });
    };
    let layout = draft.layout;
    draft.take(number, sentence)?;
    index.tell(&layout, number, sentence)?;
    Ok(())
}

/// Reads all lines up to `end`.
fn read_lines(alloc: Global, bytes: &[u8]) -> Result<(Draft, Index), TraceError>
    requires { length bytes.now ≤ MOST_BYTES }
    ensures read { IfOk result (λ p. AreRead (lines_of bytes.now) p.0 p.1) }
    ensures whole { IfOk result (λ p. length p.1.scripts.items ≡ MOST_WORKERS) }
    ensures err { IfErr result (AreFaulty (lines_of bytes.now)) }
{
    let mut draft = Draft::blank();
    let mut index = Index::new(alloc)?;
    let mut number = 1;
    let mut rest = bytes;
    'lines: while let Some((line, behind)) = first_line(rest) {
        take_line(&mut draft, &mut index, number, line)?;
        number += 1;
        rest = behind;
    }
    if !draft.stage.is_ended() {
        return Err(TraceError::NoEnd { line: number });
    }
    index.trim();
    Ok((draft, index))
}

/// Reads a trace of version 1 or 2, in one pass.
///
/// An error other than `NoMemory` is the first fault of the text. `BadLine` names the first line, from 1, that can't
/// stand where it stands, and `Limit` the first that could but for a number past a limit, whichever is earlier.
/// `NoEnd` comes where all lines are right and `end` is missing, with the number of lines plus one. A text of more
/// than `MOST_BYTES` bytes gives `Limit` with line 0. `NoMemory` comes where there is none for what is kept.
pub fn read_trace<'a>(alloc: Global, bytes: &'a [u8]) -> Result<Trace<'a>, TraceError>
    ensures ok { IfOk result (IsReadAs bytes.now) }
    ensures err { IfErr result (IsErrorOf bytes.now) }
{
    if bytes.len() > MOST_BYTES {
        return Err(TraceError::Limit {
            line: 0,
            limit: Bound::Bytes,
        });
    }
    let (draft, index) = read_lines(alloc, bytes)?;
    Ok(Trace::of(&draft, index))
}
