ghost use Rattle.std.specs.Prelude.{OnOk};
ghost use Rattle.std.specs.List.{flat_map};
ghost use Rattle.flit_report.specs.Lines.{Appends, event_line, call_line, history_line, tally_line, numbers_line, number_line};
ghost use Rattle.flit_report.specs.Content.{tallies_text};

use crate::content::{Line, Shown};
use crate::words::{
    write_call_words, write_event_words, write_outcome_words, write_reply_words, write_tally_words,
};
use flit_model::{Entry, Tally};
use std::alloc::AllocError;

// Each function here appends whole lines.

#[tactic(auto, unfolding(crate::specs::Lines::event_line))]
fn write_event(out: &mut String, shown: Shown) -> Result<(), AllocError>
    ensures { OnOk result (Appends out.old out.new (event_line shown)) }
{
    write!(out, "event {}", shown.worker)?;
    write_event_words(out, shown.event, shown.answer)?;
    out.push('\n')
}

#[tactic(auto, unfolding(crate::specs::Lines::call_line))]
fn write_call(out: &mut String, version: u32, line: Line) -> Result<(), AllocError>
    ensures { OnOk result (Appends out.old out.new (call_line version line)) }
{
    write!(out, "call {}", line.worker)?;
    write_call_words(out, version, line.call)?;
    write_outcome_words(out, line.outcome)?;
    out.push('\n')
}

#[tactic(auto, unfolding(crate::specs::Lines::history_line))]
fn write_entry(out: &mut String, version: u32, entry: Entry) -> Result<(), AllocError>
    ensures { OnOk result (Appends out.old out.new (history_line version entry)) }
{
    write!(out, "history {} {}", entry.worker, entry.number)?;
    write_call_words(out, version, entry.call)?;
    write_reply_words(out, entry.reply)?;
    out.push('\n')
}

#[tactic(auto, unfolding(crate::specs::Lines::tally_line))]
fn write_tally(out: &mut String, worker: usize, tally: Tally) -> Result<(), AllocError>
    ensures { OnOk result (Appends out.old out.new (tally_line worker tally)) }
{
    write!(out, "worker {worker}")?;
    write_tally_words(out, tally)?;
    out.push('\n')
}

#[tactic(auto, unfolding(crate::specs::Lines::number_line))]
pub(crate) fn write_number(out: &mut String, name: &str, number: u64) -> Result<(), AllocError>
    ensures { OnOk result (Appends out.old out.new (number_line name.now number)) }
{
    writeln!(out, "{name} {number}")
}

#[tactic(auto, unfolding(crate::specs::Lines::numbers_line))]
pub(crate) fn write_numbers(out: &mut String, name: &str, numbers: &[u32]) -> Result<(), AllocError>
    ensures { OnOk result (Appends out.old out.new (numbers_line name.now numbers.now)) }
{
    out.push_str(name)?;
    for number in numbers {
        write!(out, " {number}")?;
    }
    out.push('\n')
}

pub(crate) fn write_events(out: &mut String, events: &[Shown]) -> Result<(), AllocError>
    ensures { OnOk result (Appends out.old out.new (flat_map event_line events.now)) }
{
    for shown in events {
        write_event(out, *shown)?;
    }
    Ok(())
}

pub(crate) fn write_calls(out: &mut String, version: u32, lines: &[Line]) -> Result<(), AllocError>
    ensures { OnOk result (Appends out.old out.new (flat_map (call_line version) lines.now)) }
{
    for line in lines {
        write_call(out, version, *line)?;
    }
    Ok(())
}

pub(crate) fn write_history(
    out: &mut String,
    version: u32,
    history: &[Entry],
) -> Result<(), AllocError>
    ensures { OnOk result (Appends out.old out.new (flat_map (history_line version) history.now)) }
{
    for entry in history {
        write_entry(out, version, *entry)?;
    }
    Ok(())
}

#[tactic(auto, unfolding(crate::specs::Content::tallies_text))]
pub(crate) fn write_tallies(out: &mut String, tallies: &[Tally]) -> Result<(), AllocError>
    ensures { OnOk result (Appends out.old out.new (tallies_text tallies.now)) }
{
    for (before, tally) in tallies.iter().enumerate() {
        write_tally(out, before + 1, *tally)?;
    }
    Ok(())
}
