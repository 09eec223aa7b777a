ghost use Rattle.std.specs.Prelude.{◌≡◌, map, IfOk};
ghost use Rattle.flit_trace.specs.Contents.{Content};
ghost use Rattle.flit_trace.specs.SeenTraces.{Shows};
ghost use Rattle.flit_step_reports.specs.StepReports.{AreWorksOf};

use flit_model::{Item, Work};
use flit_trace::{Script, Trace};
use flit_words::NoMemory;
use std::alloc::Global;

/// The items of a script.
fn items_of(alloc: Global, script: Script<'_>) -> Result<Vec<Item>, NoMemory>
    ensures { IfOk result (λ items. items.items ≡ map (λ line. line.1) script.entry) }
{
    let mut items = Vec::new(alloc);
    for (_, item) in script {
        items.push(item)?;
    }
    Ok(items)
}

/// A work for each worker of a trace, worker 1 first: the items of its lines, and its stop. The error is NoMemory alone.
pub fn works_of(alloc: Global, trace: &Trace) -> Result<Vec<Work>, NoMemory>
    ensures { IfOk result (λ works. (t : Content) → Shows trace.now t → AreWorksOf t works.items) }
{
    let workers = trace.head().layout.workers;
    let mut works = Vec::with_capacity(alloc, workers as usize)?;
    for before in 0..workers {
        let worker = before + 1;
        works.push(Work {
            items: items_of(alloc, trace.script(worker))?,
            stop: trace.stop(worker),
        })?;
    }
    Ok(works)
}
