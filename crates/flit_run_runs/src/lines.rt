ghost use Rattle.std.specs.Prelude.{◌≡◌, ◌++◌, length, map, IfOk, OnOk};
ghost use Rattle.std.specs.List.{AllByRecursion, flat_map, range_with_len};
ghost use Rattle.flit_model.specs.Lists.{IsRisingFrom};
ghost use Rattle.flit_trace.specs.Contents.{Content};
ghost use Rattle.flit_trace.specs.Rights.{IsRightLine, lines_of_items};
ghost use Rattle.flit_trace.specs.SeenTraces.{Shows};
ghost use Rattle.flit_run_runs.specs.Tellings.{first_of, others_of, numbered_calls, calls_of_worker, TellsCalls};

use flit_model::{Item, Outcome};
use flit_report::Line;
use flit_step_runs::in_line_order;
use flit_trace::{Script, Trace};
use flit_words::NoMemory;
use std::alloc::Global;

/// The first of some outcomes and the others; where there is none, that of a call that nobody began.
fn split_outcomes(outcomes: &[Outcome]) -> (Outcome, &[Outcome])
    ensures first { result.0 ≡ first_of outcomes.now }
    ensures others { result.1.now ≡ others_of outcomes.now }
{
    match outcomes.split_first() {
        Some((first, others)) => (*first, others),
        None => (Outcome::Stopped, outcomes),
    }
}

/// Tells the calls of a worker, each with the number of its line and with its outcome, which come in the same order.
fn push_calls(
    worker: u32,
    script: Script<'_>,
    outcomes: &[Outcome],
    told: &mut Vec<(u32, Line)>,
) -> Result<(), NoMemory>
    ensures { OnOk result (told.new.items ≡ told.old.items
        ++ numbered_calls worker outcomes.now script.entry) }
{
    let mut left = outcomes;
    for (number, item) in script {
        if let Item::Call(call) = item {
            let (outcome, others) = split_outcomes(left);
            left = others;
            told.push((
                number,
                Line {
                    worker,
                    call,
                    outcome,
                },
            ))?;
        }
    }
    Ok(())
}

/// Tells the calls of all workers, each with the number of its line, worker 1 first.
fn numbered_lines(
    alloc: Global,
    trace: &Trace,
    outcomes: &[Vec<Outcome>],
) -> Result<Vec<(u32, Line)>, NoMemory>
    requires { length outcomes.now ≡ trace.now.head.layout.workers }
    ensures { IfOk result (λ told. told.items ≡ flat_map
        (calls_of_worker trace.now (map (λ os. os.items) outcomes.now))
        (range_with_len 1 trace.now.head.layout.workers)) }
{
    let workers = trace.head().layout.workers;
    let mut told = Vec::with_capacity(alloc, trace.calls() as usize)?;
    for before in 0..workers {
        let worker = before + 1;
        let own = outcomes[before as usize].as_slice();
        push_calls(worker, trace.script(worker), own, &mut told)?;
    }
    Ok(told)
}

/// The lines of the report of a trace of which these are the outcomes, worker 1 first, each worker's in the order of its
/// calls: each call of the trace in the order of its lines, with its outcome. The error is NoMemory alone.
pub fn lines_of_calls(
    alloc: Global,
    trace: &Trace,
    outcomes: &[Vec<Outcome>],
) -> Result<Vec<Line>, NoMemory>
    requires { length outcomes.now ≡ trace.now.head.layout.workers }
    ensures { IfOk result (λ lines. (t : Content) → Shows trace.now t →
        IsRisingFrom 1 (lines_of_items t.items) →
        AllByRecursion (IsRightLine t.head.layout) t.items →
        TellsCalls t (map (λ os. os.items) outcomes.now) lines.items) }
{
    let told = numbered_lines(alloc, trace, outcomes)?;
    let lines = in_line_order(alloc, told)?;
    Ok(lines)
}
