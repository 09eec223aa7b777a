ghost use Rattle.std.specs.Prelude.{◌≡◌, true, length, IfOk, OnOk};
ghost use Rattle.flit_report.specs.Content.{Content as Told, text_of, summary_text};
ghost use Rattle.flit_report.specs.Lines.{Appends, number_line};
ghost use Rattle.flit_trace.specs.Contents.{Content};
ghost use Rattle.flit_trace.specs.SeenTraces.{Shows};
ghost use Rattle.flit_step_runs.specs.Counts.{AreCountsOf, IsSummaryOf};
ghost use Rattle.flit_step_runs.specs.Plays.{CanPlay, CanPlaySeen};

use crate::counting::{Counts, counts_of};
use crate::opened::run_of_works;
use crate::works::works_of;
use flit_lawful_images::count_lawful_keys;
use flit_recover::Recovered;
use flit_step_reports::plans_are_runs;
use flit_structure::Structure;
use flit_trace::Trace;
use flit_turns::Events;
use flit_words::NoMemory;
use std::alloc::{AllocError, Global};

#[tactic(auto, unfolding(flit_report::specs::Lines::number_line))]
fn write_number(out: &mut String, name: &str, number: u64) -> Result<(), AllocError>
    ensures { OnOk result (Appends out.old out.new (number_line name.now number)) }
{
    writeln!(out, "{name} {number}")
}

#[tactic(auto, unfolding(flit_report::specs::Content::summary_text))]
fn write_counts(out: &mut String, counts: Counts, keys: usize) -> Result<(), AllocError>
    ensures { OnOk result ((told : Told) → AreCountsOf counts told.lines → keys ≡ length told.keys →
        Appends out.old out.new (summary_text told)) }
{
    write_number(out, "calls", counts.calls)?;
    write_number(out, "done", counts.done)?;
    write_number(out, "stopped", counts.stopped)?;
    write_number(out, "full", counts.full)?;
    write_number(out, "worn", counts.worn)?;
    write_number(out, "keys", keys as u64)
}

/// The text of the summary of a report that has so many calls and keys. The error is NoMemory alone.
#[tactic(auto, unfolding(flit_report::specs::Content::text_of))]
pub fn summary_of(alloc: Global, counts: Counts, keys: usize) -> Result<Vec<u8>, NoMemory>
    ensures { IfOk result (λ text. (told : Told) → told.summary ≡ true →
        AreCountsOf counts told.lines → keys ≡ length told.keys →
        text.items ≡ text_of told) }
{
    let mut out = String::new(alloc);
    write_counts(&mut out, counts, keys)?;
    Ok(out.into_bytes())
}

/// The text of the summary of the run of a trace from what recovery found. Nothing is made that a summary doesn't count: no
/// lines, no history and no tallies; and the trace's scripts are let go before the run. The error is NoMemory alone.
pub fn summary_of_run<S: Structure>(
    alloc: Global,
    structure: S,
    start: Recovered,
    trace: Trace<'_>,
) -> Result<Vec<u8>, NoMemory>
    requires { CanPlaySeen (S.meaning structure) start trace }
    ensures { IfOk result (λ text. (t : Content) → Shows trace.entry t →
        CanPlay (S.meaning structure) start t →
        IsSummaryOf (S.meaning structure) t start text.items) }
{
    plans_are_runs::<S>();
    let mut events = Events {
        kept: false,
        shown: Vec::new(alloc),
    };
    let works = works_of(alloc, &trace)?;
    let trace = trace.without_scripts(alloc)?;
    let sched = run_of_works(alloc, structure, start, works, &trace, &mut events)?;
    let counts = counts_of(&sched, &trace);
    let image = sched.into_image(alloc, trace.ahead())?;
    let keys = count_lawful_keys(alloc, &image)?;
    let text = summary_of(alloc, counts, keys)?;
    Ok(text)
}
