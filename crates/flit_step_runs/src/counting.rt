ghost use Rattle.std.specs.Prelude.{◌≡◌, ◌<◌, ◌≤◌, ◌+◌, ◌++◌, ◌^◌, List, [], ◌∷◌, length};
ghost use Rattle.std.specs.List.{AllByRecursion};
ghost use Rattle.flit_words.specs.declared.limits.TheConstants.{MOST_CALLS};
ghost use Rattle.flit_report.specs.Content.{is_done, is_stopped, is_full, is_worn};
ghost use Rattle.flit_report.specs.declared.content.Line.{Line as Told_line};
ghost use Rattle.flit_trace.specs.Contents.{Content};
ghost use Rattle.flit_trace.specs.Rights.{IsRightLine};
ghost use Rattle.flit_sched.specs.Views.{HasWorker, OfWorker};
ghost use Rattle.flit_step_reports.specs.StepReports.{told_item, told_lines};
ghost use Rattle.flit_step_runs.specs.Counts.{AreCountsOf};
ghost use Rattle.flit_step_runs.specs.Plays.{ShowsTurns};
ghost use Rattle.flit_step_runs.specs.Tellings.{told_items, HoldsItems};

use crate::lines::outcome_in;
use flit_model::{Item, Outcome, Reply};
use flit_sched::Sched;
use flit_structure::Structure;
use flit_trace::Trace;

/// How many calls there are, and how many of them came out in each way.
#[derive(Clone, Copy, Debug, PartialEq, Eq)]
pub struct Counts {
    pub calls: u64,
    /// Those with a reply, but for the replies that are counted below.
    pub done: u64,
    pub stopped: u64,
    pub full: u64,
    pub worn: u64,
}

fn is_done(outcome: Outcome) -> bool
    ensures { result ≡ is_done outcome }
{
    matches!(
        outcome,
        Outcome::Replied(Reply::Yes | Reply::No | Reply::Found { .. })
    )
}

fn is_stopped(outcome: Outcome) -> bool
    ensures { result ≡ is_stopped outcome }
{
    matches!(outcome, Outcome::Stopped)
}

fn is_full(outcome: Outcome) -> bool
    ensures { result ≡ is_full outcome }
{
    matches!(outcome, Outcome::Replied(Reply::Full { .. }))
}

fn is_worn(outcome: Outcome) -> bool
    ensures { result ≡ is_worn outcome }
{
    matches!(outcome, Outcome::Replied(Reply::Worn { .. }))
}

/// The counts of no lines.
pub fn no_lines() -> Counts
    ensures counts { AreCountsOf result [] }
    ensures calls { result.calls ≡ 0 }
{
    Counts {
        calls: 0,
        done: 0,
        stopped: 0,
        full: 0,
        worn: 0,
    }
}

/// These counts, and one line more.
pub fn with_line(counts: Counts, outcome: Outcome) -> Counts
    requires counts { (lines : List Told_line) × AreCountsOf counts lines }
    requires room { counts.calls < 2 ^ 32 }
    ensures counts { (lines : List Told_line) (line : Told_line) → line.outcome ≡ outcome →
        AreCountsOf counts lines → AreCountsOf result (lines ++ line ∷ []) }
    ensures calls { result.calls ≡ counts.calls + 1 }
{
    Counts {
        calls: counts.calls + 1,
        done: counts.done + u64::from(is_done(outcome)),
        stopped: counts.stopped + u64::from(is_stopped(outcome)),
        full: counts.full + u64::from(is_full(outcome)),
        worn: counts.worn + u64::from(is_worn(outcome)),
    }
}

/// These counts with what is told of a worker's item; of an Evict there is nothing to tell.
fn with_item<S: Structure>(
    sched: &Sched<S>,
    worker: u32,
    item: u32,
    line: Item,
    counts: Counts,
) -> Counts
    requires worker { HasWorker sched.now.run worker }
    requires item { OfWorker sched.now.run worker (λ p. item < length p.items) }
    requires counts { (lines : List Told_line) × AreCountsOf counts lines }
    requires room { counts.calls < 2 ^ 32 }
    ensures counts { (lines : List Told_line) → AreCountsOf counts lines →
        AreCountsOf result (lines ++ told_item sched.now.run worker item line) }
    ensures calls { result.calls ≤ counts.calls + 1 }
{
    match line {
        Item::Call(_) => with_line(counts, outcome_in(sched, worker, item)),
        Item::Evict(_) => counts,
    }
}

/// These counts with what is told of the items of a worker.
fn with_items<S: Structure>(sched: &Sched<S>, worker: u32, items: &[Item], counts: Counts) -> Counts
    requires worker { HasWorker sched.now.run worker }
    requires items { OfWorker sched.now.run worker (λ p. items.now ≡ p.items) }
    requires few { length items.now ≤ MOST_CALLS }
    requires counts { (lines : List Told_line) × AreCountsOf counts lines }
    requires room { counts.calls + length items.now < 2 ^ 32 }
    ensures counts { (lines : List Told_line) → AreCountsOf counts lines → AreCountsOf result
        (lines ++ told_items sched.now.run worker 0 items.now) }
    ensures calls { result.calls ≤ counts.calls + length items.now }
{
    let mut counted = counts;
    let mut item = 0;
    for line in items {
        counted = with_item(sched, worker, item, *line, counted);
        item += 1;
    }
    counted
}

/// The counts of the lines of the report of a run on which a trace was played. The scripts of the trace aren't read.
pub fn counts_of<S: Structure>(sched: &Sched<S>, trace: &Trace) -> Counts
    requires { (t : Content) × ShowsTurns trace.now t × HoldsItems t sched.now.run }
    ensures { (t : Content) → ShowsTurns trace.now t → HoldsItems t sched.now.run →
        AllByRecursion (IsRightLine t.head.layout) t.items →
        AreCountsOf result (told_lines sched.now.run [] t.items) }
{
    let workers = trace.head().layout.workers;
    let mut counts = no_lines();
    for before in 0..workers {
        let worker = before + 1;
        counts = with_items(sched, worker, sched.items(worker), counts);
    }
    counts
}
