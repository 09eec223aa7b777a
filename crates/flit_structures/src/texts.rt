ghost use Rattle.std.specs.Prelude.{◌≡◌, ◌≢◌, IfOk, IfErr, IsTrue, IsFalse};
ghost use Rattle.flit_trace.specs.SeenTraces.{IsReadAs};
ghost use Rattle.flit_structures.specs.Refusals.{status_of_no_text};
ghost use Rattle.flit_structures.specs.Starts.{StartsSeen};
ghost use Rattle.flit_structures.specs.Structures.{IsPlayable};
ghost use Rattle.flit_structures.specs.Texts.{IsTextOf, HasNoText, StartRefused};

use crate::laws::traces_say_headline;
use crate::reports::told;
use crate::runs::Wanted;
use crate::starts::start_of;
use flit_recover::{Damage, Recovered};
use flit_statuses::Status;
use flit_trace::{Place, Trace, TraceError, read_trace};
use std::alloc::Global;

/// Why there is no text of a trace's run.
#[derive(Clone, Copy, Debug, PartialEq, Eq)]
pub enum NoText {
    /// The bytes are no trace; this is their first fault.
    Trace(TraceError),
    /// The trace has one counter for each line of eight words, which isn't played.
    Unplayable,
    /// The start image isn't lawful; this is its first damage.
    Start(Damage),
    /// There was no memory.
    NoMemory,
}

impl From<NoText> for Status {
    ghost from_gives = { λ none status. status ≡ status_of_no_text none };

    fn from(none: NoText) -> Self {
        match none {
            NoText::Trace(error) => Status::from(error),
            NoText::Unplayable => Status::BadTrace { line: 0 },
            NoText::Start(damage) => Status::from(damage),
            NoText::NoMemory => Status::NoMemory,
        }
    }
}

/// Whether traces with this place are played.
fn is_played(place: Place) -> bool
    ensures played { IsTrue result → place ≢ Place.Lines }
    ensures lines { IsFalse result → place ≡ Place.Lines }
{
    match place {
        Place::Adjacent | Place::Hashed(_) | Place::Packed => true,
        Place::Lines => false,
    }
}

/// The trace that the bytes are, if it is played. An error is the first fault of the bytes, then
/// Unplayable. NoMemory may come in the place of each.
fn trace_of(alloc: Global, bytes: &[u8]) -> Result<Trace<'_>, NoText>
    ensures read { IfOk result (IsReadAs bytes.now) }
    ensures playable { IfOk result (λ trace. IsPlayable trace.head) }
    ensures none { IfErr result (HasNoText bytes.now) }
{
    let trace = match read_trace(alloc, bytes) {
        Ok(trace) => trace,
        Err(error) => match error {
            TraceError::NoMemory => return Err(NoText::NoMemory),
            TraceError::BadLine { .. } | TraceError::Limit { .. } | TraceError::NoEnd { .. } => {
                return Err(NoText::Trace(error));
            }
        },
    };
    if !is_played(trace.head().place) {
        return Err(NoText::Unplayable);
    }
    Ok(trace)
}

/// The trace that the bytes are, if it is played. The bytes are let go.
///
/// # Errors
/// The first fault of the bytes, then Unplayable. NoMemory may come in the place of each.
pub fn owned_trace_of(alloc: Global, bytes: Vec<u8>) -> Result<Trace<'static>, NoText>
    ensures read { IfOk result (IsReadAs bytes.items) }
    ensures playable { IfOk result (λ trace. IsPlayable trace.head) }
    ensures none { IfErr result (HasNoText bytes.items) }
{
    let trace = trace_of(alloc, &bytes)?;
    Ok(trace.into_owned())
}

/// What recovery finds where a trace starts.
///
/// # Errors
/// The first damage of the start image, or NoMemory.
pub fn start_in(alloc: Global, trace: &Trace) -> Result<Recovered, NoText>
    ensures starts { IfOk result (StartsSeen trace.now) }
    ensures refused { IfErr result (StartRefused trace.now) }
{
    match start_of(alloc, trace) {
        Ok(start) => Ok(start),
        Err(damage) => match damage {
            Damage::NoMemory => Err(NoText::NoMemory),
            _ => Err(NoText::Start(damage)),
        },
    }
}

/// The trace that the bytes are, and what recovery finds where it starts. The errors are those of
/// `trace_of`, then those of `start_in`.
fn trace_and_start(alloc: Global, bytes: &[u8]) -> Result<(Trace<'_>, Recovered), NoText>
    ensures read { IfOk result (λ found. IsReadAs bytes.now found.0) }
    ensures playable { IfOk result (λ found. IsPlayable found.0.head) }
    ensures starts { IfOk result (λ found. StartsSeen found.0 found.1) }
    ensures none { IfErr result (HasNoText bytes.now) }
{
    let trace = trace_of(alloc, bytes)?;
    let start = start_in(alloc, &trace)?;
    Ok((trace, start))
}

/// The same of bytes that are let go.
fn owned_trace_and_start(
    alloc: Global,
    bytes: Vec<u8>,
) -> Result<(Trace<'static>, Recovered), NoText>
    ensures read { IfOk result (λ found. IsReadAs bytes.items found.0) }
    ensures playable { IfOk result (λ found. IsPlayable found.0.head) }
    ensures starts { IfOk result (λ found. StartsSeen found.0 found.1) }
    ensures none { IfErr result (HasNoText bytes.items) }
{
    let found = trace_and_start(alloc, &bytes)?;
    Ok((found.0.into_owned(), found.1))
}

/// The text that is wanted of the trace that the bytes are, of its run on the structure that it names: the turns of its turn
/// lines are given, and then each worker runs until it is out. The bytes are let go before the run.
///
/// # Errors
/// Those of `owned_trace_of`, then those of `start_in`.
pub fn text_of_trace(alloc: Global, bytes: Vec<u8>, wanted: Wanted) -> Result<Vec<u8>, NoText>
    ensures text { IfOk result (λ text. IsTextOf bytes.items wanted text.items) }
    ensures none { IfErr result (HasNoText bytes.items) }
{
    traces_say_headline();
    let found = owned_trace_and_start(alloc, bytes)?;
    let Ok(text) = told(alloc, found.1, found.0, wanted) else {
        return Err(NoText::NoMemory);
    };
    Ok(text)
}
