ghost use Rattle.std.specs.Prelude.{◌≡◌, ◌<◌, ◌≤◌, ◌++◌, [], length, map, IfOk, OnOk};
ghost use Rattle.std.specs.List.{AllByRecursion, flat_map, range_with_len};
ghost use Rattle.flit_words.specs.declared.limits.TheConstants.{MOST_CALLS};
ghost use Rattle.flit_model.specs.Lists.{IsRisingFrom};
ghost use Rattle.flit_trace.specs.Contents.{Content};
ghost use Rattle.flit_trace.specs.Rights.{IsRightLine, lines_of_items};
ghost use Rattle.flit_trace.specs.SeenTraces.{Shows, script_at};
ghost use Rattle.flit_sched.specs.Views.{HasWorker, OfWorker};
ghost use Rattle.flit_step_reports.specs.StepReports.{outcome_in, told_lines};
ghost use Rattle.flit_step_runs.specs.Tellings.{numbered_item, numbered_script, HoldsScripts, IsInLineOrder};

use flit_model::{Item, Outcome};
use flit_report::Line;
use flit_sched::Sched;
use flit_structure::Structure;
use flit_trace::{Script, Trace};
use flit_words::NoMemory;
use std::alloc::Global;

/// What became of an item of a worker, counted from 0; of an Evict it is that of a call that nobody began.
pub(crate) fn outcome_in<S: Structure>(sched: &Sched<S>, worker: u32, item: u32) -> Outcome
    requires worker { HasWorker sched.now.run worker }
    requires item { OfWorker sched.now.run worker (λ p. item < length p.items) }
    ensures { result ≡ outcome_in sched.now.run worker item }
{
    sched.outcome(worker, item).unwrap_or(Outcome::Stopped)
}

/// Tells a line of a worker, with its number; of an Evict there is nothing to tell.
fn push_item<S: Structure>(
    sched: &Sched<S>,
    worker: u32,
    item: u32,
    line: (u32, Item),
    told: &mut Vec<(u32, Line)>,
) -> Result<(), NoMemory>
    requires worker { HasWorker sched.now.run worker }
    requires item { OfWorker sched.now.run worker (λ p. item < length p.items) }
    ensures { OnOk result (told.new.items ≡ told.old.items ++ numbered_item sched.now.run line.0
        worker item line.1) }
{
    if let Item::Call(call) = line.1 {
        let outcome = outcome_in(sched, worker, item);
        told.push((
            line.0,
            Line {
                worker,
                call,
                outcome,
            },
        ))?;
    }
    Ok(())
}

/// Tells the lines of a worker, each with its number.
fn push_script<S: Structure>(
    sched: &Sched<S>,
    worker: u32,
    script: Script<'_>,
    told: &mut Vec<(u32, Line)>,
) -> Result<(), NoMemory>
    requires worker { HasWorker sched.now.run worker }
    requires items { OfWorker sched.now.run worker (λ p. length p.items ≡ length script) }
    requires few { length script ≤ MOST_CALLS }
    ensures { OnOk result (told.new.items ≡ told.old.items ++ numbered_script sched.now.run worker
        0 script.entry) }
{
    let mut item = 0;
    for line in script {
        push_item(sched, worker, item, line, told)?;
        item += 1;
    }
    Ok(())
}

/// Tells the lines of all workers, each with its number, worker 1 first.
fn numbered_lines<S: Structure>(
    alloc: Global,
    sched: &Sched<S>,
    trace: &Trace,
) -> Result<Vec<(u32, Line)>, NoMemory>
    requires { HoldsScripts trace.now sched.now.run }
    ensures { IfOk result (λ told. told.items ≡ flat_map (λ worker. numbered_script sched.now.run
        worker 0 (script_at trace.now worker))
        (range_with_len 1 trace.now.head.layout.workers)) }
{
    let workers = trace.head().layout.workers;
    let mut told = Vec::with_capacity(alloc, trace.calls() as usize)?;
    for before in 0..workers {
        let worker = before + 1;
        push_script(sched, worker, trace.script(worker), &mut told)?;
    }
    Ok(told)
}

/// These lines without their numbers.
fn without_numbers(alloc: Global, told: &[(u32, Line)]) -> Result<Vec<Line>, NoMemory>
    ensures { IfOk result (λ lines. lines.items ≡ map (λ l. l.1) told.now) }
{
    let mut lines = Vec::with_capacity(alloc, told.len())?;
    for line in told {
        lines.push(line.1)?;
    }
    Ok(lines)
}

/// Lines in the order of their numbers, which are taken off; lines of one number stay in their order. The error is
/// NoMemory alone.
pub fn in_line_order(alloc: Global, mut told: Vec<(u32, Line)>) -> Result<Vec<Line>, NoMemory>
    ensures { IfOk result (λ lines. IsInLineOrder told.items lines.items) }
{
    told.sort_by_key(|line| line.0)?;
    let lines = without_numbers(alloc, &told)?;
    Ok(lines)
}

/// The lines of the report of a run on which a trace was played: of each call of the trace what became of it, in the
/// order of the trace. The error is NoMemory alone.
pub fn lines_of<S: Structure>(
    alloc: Global,
    sched: &Sched<S>,
    trace: &Trace,
) -> Result<Vec<Line>, NoMemory>
    requires { HoldsScripts trace.now sched.now.run }
    ensures { IfOk result (λ lines. (t : Content) → Shows trace.now t →
        IsRisingFrom 1 (lines_of_items t.items) →
        AllByRecursion (IsRightLine t.head.layout) t.items →
        lines.items ≡ told_lines sched.now.run [] t.items) }
{
    let told = numbered_lines(alloc, sched, trace)?;
    let lines = in_line_order(alloc, told)?;
    Ok(lines)
}
