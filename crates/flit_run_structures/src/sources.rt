ghost use Rattle.std.specs.Prelude.{IfOk, IfErr, IfSome};
ghost use Rattle.flit_trace.specs.Heads.{IsRightHead, IsHeadOf};
ghost use Rattle.flit_trace.specs.SeenTraces.{IsReadAs};
ghost use Rattle.flit_structures.specs.Structures.{IsPlayable};
ghost use Rattle.flit_structures.specs.Texts.{HasNoText};
ghost use Rattle.flit_run_structures.specs.Sources.{HasItsWorks, IsOutset, IsSourceOf};

use flit_model::Work;
use flit_recover::Recovered;
use flit_step_runs::works_of;
use flit_structures::{NoText, fresh_start, owned_trace_of, start_in};
use flit_trace::{Head, Place, Trace, head_ahead, within_limits};
use std::alloc::Global;

/// A trace that was read, and its works.
#[derive(Drop)]
pub(crate) struct ReadTrace {
    pub trace: Trace<'static>,
    pub works: Vec<Work>,
}

/// What the lines of a trace are taken from.
#[derive(Drop)]
pub(crate) enum Source {
    /// A trace that was read before.
    Read(ReadTrace),
    /// A text that is still to be read.
    Unread(Vec<u8>),
}

/// What is known of a trace at the outset of its run.
#[derive(Drop)]
pub(crate) struct Outset {
    pub head: Head,
    /// What recovery finds where the trace starts.
    pub start: Recovered,
    pub source: Source,
}

/// The trace that the bytes are, and its works. The bytes are let go.
///
/// # Errors
/// The first fault of the bytes, then Unplayable. NoMemory may come in the place of each.
pub(crate) fn trace_with_works(alloc: Global, bytes: Vec<u8>) -> Result<ReadTrace, NoText>
    ensures read { IfOk result (λ r. IsReadAs bytes.items r.trace) }
    ensures playable { IfOk result (λ r. IsPlayable r.trace.head) }
    ensures works { IfOk result HasItsWorks }
    ensures none { IfErr result (HasNoText bytes.items) }
{
    let trace = owned_trace_of(alloc, bytes)?;
    let Ok(works) = works_of(alloc, &trace) else {
        return Err(NoText::NoMemory);
    };
    Ok(ReadTrace { trace, works })
}

/// The head of the trace that the bytes may be, where their first lines tell it and such a trace is played.
fn played_head(bytes: &[u8]) -> Option<Head>
    ensures right { IfSome result IsRightHead }
    ensures head { IfSome result (IsHeadOf bytes.now) }
    ensures playable { IfSome result IsPlayable }
{
    let head = head_ahead(bytes)?;
    match head.place {
        Place::Adjacent | Place::Hashed(_) | Place::Packed => Some(head),
        Place::Lines => None,
    }
}

/// The outset of the run of the trace that the bytes are. Where their first lines tell the head, they are still unread: the
/// trace, if they are one, starts in fresh words.
///
/// # Errors
/// The first fault of the bytes, then Unplayable, then the first damage of the start image. NoMemory may come in the place
/// of each, and a text that is still unread may have the first two.
pub(crate) fn outset_of(alloc: Global, bytes: Vec<u8>) -> Result<Outset, NoText>
    ensures source { IfOk result (λ r. IsSourceOf bytes.items r.source) }
    ensures outset { IfOk result IsOutset }
    ensures none { IfErr result (HasNoText bytes.items) }
{
    within_limits();
    match played_head(&bytes) {
        Some(head) => {
            let Ok(start) = fresh_start(alloc, &head) else {
                return Err(NoText::NoMemory);
            };
            let source = Source::Unread(bytes);
            Ok(Outset {
                head,
                start,
                source,
            })
        }
        None => {
            let read = trace_with_works(alloc, bytes)?;
            let head = read.trace.head();
            let start = start_in(alloc, &read.trace)?;
            let source = Source::Read(read);
            Ok(Outset {
                head,
                start,
                source,
            })
        }
    }
}
