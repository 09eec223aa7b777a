ghost use Rattle.std.specs.Prelude.{◌≡◌, true, [], length, IfSome, if◌then◌else◌};
ghost use Rattle.flit_words.specs.Layouts.{Accepted, words_of};
ghost use Rattle.flit_words.specs.declared.limits.TheConstants.{MOST_CALLS};
ghost use Rattle.flit_trace.specs.Starts.{IsStartOf, words_in};
ghost use Rattle.flit_trace.specs.Ahead.{Names};

use crate::drafts::Draft;
use crate::entries::Entry;
use crate::heads::Head;
use crate::index::{Index, empty_scripts};
use crate::scripts::{Script, Turns};
use flit_image::Image;
use flit_model::Ahead;
use flit_words::NoMemory;
use std::alloc::Global;
use std::marker::{Model, PhantomData};

/// A trace that was read. It keeps what each call, evict and turn line says in at most 16 bytes, and scripts and
/// turns are lent from there. No text is copied.
#[derive(Debug, Drop)]
pub struct Trace<'a> {
    head: Head,
    calls: u32,
    /// Each worker's call and evict lines, worker 1 first.
    scripts: Vec<Vec<Entry>>,
    stops: [Option<u64>; 64],
    turns: Vec<(u32, u64)>,
    ahead: Ahead,
    start: Option<Image>,
    /// The text that was read stays lent.
    text: PhantomData<&'a [u8]>,
}

impl<'a> Model for Trace<'a> {
    ghost use Rattle.flit_trace.specs.SeenTraces.{SeenTrace};

    ghost Value = { SeenTrace };

    ghost use Rattle.flit_trace.specs.Views.{seen_of, IsTraceInside};

    ghost view = { seen_of };

    ghost invariant = { IsTraceInside };
}

/// The words that ahead lines name.
fn ahead_of(all: bool, words: Vec<u32>) -> Ahead
    ensures { Names result all (if all then [] else words.items) }
{
    if all {
        Ahead::All
    } else if words.is_empty() {
        Ahead::None
    } else {
        Ahead::Words(words)
    }
}

/// The start image of these words, where a start block stands.
fn start_of(draft: &Draft, words: Vec<u64>) -> Option<Image>
    requires accepted { Accepted draft.now.layout }
    requires valued { draft.now.has_start ≡ true → draft.now.layout.values ≡ true }
    requires whole { draft.now.has_start ≡ true → length words.items ≡ words_of draft.now.layout }
    ensures words { words_in result ≡ (if draft.now.has_start then Some words.items else None) }
    ensures is { IfSome result (IsStartOf draft.now.layout) }
{
    if !draft.has_start {
        return None;
    }
    Some(Image {
        kind: draft.layout.kind,
        buckets: draft.layout.buckets,
        rows: draft.layout.rows,
        values: true,
        words,
    })
}

impl<'a> Trace<'a> {
    ghost use Rattle.flit_trace.specs.Contents.{Contents, content_of};
    ghost use Rattle.flit_trace.specs.Counts.{IsCounted};
    ghost use Rattle.flit_trace.specs.Index.{IsIndexOf};
    ghost use Rattle.flit_trace.specs.Readings.{IsReady};
    ghost use Rattle.flit_trace.specs.SeenTraces.{Shows};

    /// The trace of a draft and an index of all lines.
    pub(crate) fn of(draft: &Draft, index: Index) -> Trace<'a>
        requires { IsReady draft.now index }
        ensures { (t : Contents) → IsIndexOf index t → IsCounted draft.now t.items →
            Shows result (content_of draft.now t) }
    {
        let Index {
            scripts,
            turns,
            all_ahead,
            ahead,
            words,
        } = index;
        Trace {
            head: draft.head(),
            calls: draft.calls,
            scripts,
            stops: draft.stops,
            turns,
            ahead: ahead_of(all_ahead, ahead),
            start: start_of(draft, words),
            text: PhantomData,
        }
    }
}

impl Trace<'_> {
    ghost use Rattle.std.specs.Prelude.{◌≤◌, IfOk, MatchOption};
    ghost use Rattle.flit_trace.specs.Drafts.{stop_of};
    ghost use Rattle.flit_trace.specs.SeenTraces.{script_at, IsWorker, IsWithoutScripts};

    /// The same trace, for which the text that was read needn't stay lent.
    pub fn into_owned(self) -> Trace<'static>
        ensures { result ≡ self.entry }
    {
        let Trace {
            head,
            calls,
            scripts,
            stops,
            turns,
            ahead,
            start,
            text: _,
        } = self;
        Trace {
            head,
            calls,
            scripts,
            stops,
            turns,
            ahead,
            start,
            text: PhantomData,
        }
    }

    /// The trace with no line in its scripts, which are let go. The error is NoMemory alone.
    pub fn without_scripts(self, alloc: Global) -> Result<Trace<'static>, NoMemory>
        ensures { IfOk result (IsWithoutScripts self.entry) }
    {
        let Trace {
            head,
            calls,
            scripts,
            stops,
            turns,
            ahead,
            start,
            text: _,
        } = self;
        drop(scripts);
        Ok(Trace {
            head,
            calls,
            scripts: empty_scripts(alloc)?,
            stops,
            turns,
            ahead,
            start,
            text: PhantomData,
        })
    }

    /// What the trace says before its body. The layout has as many slots as the place.
    pub fn head(&self) -> Head
        ensures is { result ≡ self.now.head }
        ensures accepted { Accepted result.layout }
    {
        self.head
    }

    /// How many calls the trace has. Write-backs aren't counted.
    pub fn calls(&self) -> u32
        ensures is { result ≡ self.now.calls }
        ensures few { result ≤ MOST_CALLS }
    {
        self.calls
    }

    /// The lines of a worker, from 1.
    pub fn script(&self, worker: u32) -> Script<'_>
        requires { IsWorker self.now worker }
        ensures { result ≡ script_at self.now worker }
    {
        Script::of(self.scripts[worker as usize - 1].as_slice())
    }

    /// After how many events a worker, from 1, stops. None comes where it has no stop line.
    pub fn stop(&self, worker: u32) -> Option<u64>
        requires { IsWorker self.now worker }
        ensures { result ≡ stop_of self.now.stops worker }
    {
        self.stops[worker as usize - 1]
    }

    /// The turn lines.
    pub fn turns(&self) -> Turns<'_>
        ensures { result ≡ self.now.turns }
    {
        Turns::of(self.turns.as_slice())
    }

    /// The words that the ahead lines name.
    pub fn ahead(&self) -> &Ahead
        ensures { Names result.now self.now.all_ahead self.now.ahead }
    {
        &self.ahead
    }

    /// The start image, which has values. None comes where there is no start block.
    pub fn start(&self) -> Option<&Image>
        ensures words { MatchOption result (self.now.start ≡ None)
            (λ image. self.now.start ≡ Some image.now.words.items) }
        ensures is { IfSome result (λ image. IsStartOf self.now.head.layout image.now) }
    {
        self.start.as_ref()
    }
}
