ghost use Rattle.std.specs.Prelude.{◌≡◌, IfOk, IfErr};
ghost use Rattle.flit_table.specs.Passes.{BelongsTo, IsFirst};
ghost use Rattle.flit_table.specs.Views.{opening_at};
ghost use Rattle.flit_run_structures.specs.Sources.{HasItsWorks, IsReadyRun, RunsSource, IsTakenFrom, HasNoTextFrom};

use crate::sources::{ReadTrace, Source, trace_with_works};
use flit_recover::Recovered;
use flit_structure::Structure;
use flit_structures::NoText;
use flit_table::{Pass, Running};
use flit_words::NoMemory;
use std::alloc::Global;
use std::marker::PhantomData;
use std::thread::{Threads, join};

/// A trace, and a structure that was opened for it.
#[derive(Drop)]
pub(crate) struct Ready<S: Structure> {
    pub running: Running<S>,
    /// It has all names.
    pub pass: Pass<S>,
    pub read: ReadTrace,
}

/// The trace of a source, and a structure that was opened at its start. Where the text is still unread, it is read in another
/// thread while the structure is opened here.
fn read_and_opened<S: Structure<Op: Send> + Send + Sync, R: Threads + Sync>(
    rt: &R,
    alloc: Global,
    structure: S,
    start: Recovered,
    source: Source,
) -> (
    Result<ReadTrace, NoText>,
    Result<(Running<S>, Pass<S>), NoMemory>,
)
    requires { RunsSource (S.meaning structure) start source }
    ensures taken { IfOk result.0 (λ r. IsTakenFrom source r.trace) }
    ensures works { IfOk result.0 HasItsWorks }
    ensures none { IfErr result.0 (HasNoTextFrom source) }
    ensures origin { IfOk result.1 (λ r. (r.0.origin.structure.value ≡ structure)
        × (r.0.origin.start.value ≡ start)) }
    ensures pass { IfOk result.1 (λ r. BelongsTo S.meaning r.0 r.1) }
    ensures first { IfOk result.1 (λ r. IsFirst (S.meaning structure) r.0.origin r.1) }
{
    // The closure that opens it has to hold a value of each type that its result names.
    let ops = PhantomData::<S::Op>;
    match source {
        Source::Read(read) => (Ok(read), Running::open(alloc, structure, start)),
        Source::Unread(bytes) => join(
            rt,
            move || trace_with_works(alloc, bytes),
            move || -> Result<(Running<S>, Pass<S>), NoMemory>
                requires { (S.meaning structure).opens (opening_at start) }
                ensures origin { IfOk result (λ r. (r.0.origin.structure.value ≡ structure)
                    × (r.0.origin.start.value ≡ start)) }
                ensures pass { IfOk result (λ r. BelongsTo S.meaning r.0 r.1) }
                ensures first { IfOk result (λ r. IsFirst (S.meaning structure) r.0.origin r.1) }
            {
                let _ops = ops;
                Running::open(alloc, structure, start)
            },
        ),
    }
}

/// Opens a structure for the trace of a source, which is read meanwhile, unless it was read before.
///
/// # Errors
/// Where the text is still unread, its first fault, then Unplayable. NoMemory may come in the place of each, or where there
/// is none.
pub(crate) fn opened<S: Structure<Op: Send> + Send + Sync, R: Threads + Sync>(
    rt: &R,
    alloc: Global,
    structure: S,
    start: Recovered,
    source: Source,
) -> Result<Ready<S>, NoText>
    requires { RunsSource (S.meaning structure) start source }
    ensures ready { IfOk result (λ r. IsReadyRun S.meaning r.running r.pass r.read) }
    ensures taken { IfOk result (λ r. IsTakenFrom source r.read.trace) }
    ensures none { IfErr result (HasNoTextFrom source) }
{
    let (read, opened) = read_and_opened(rt, alloc, structure, start, source);
    let read = read?;
    let Ok((running, pass)) = opened else {
        return Err(NoText::NoMemory);
    };
    Ok(Ready {
        running,
        pass,
        read,
    })
}
