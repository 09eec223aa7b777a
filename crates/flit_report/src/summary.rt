ghost use Rattle.std.specs.Prelude.{◌≡◌, OnOk, count_by};
ghost use Rattle.flit_report.specs.Lines.{Appends};
ghost use Rattle.flit_report.specs.Content.{is_done, is_stopped, is_full, is_worn, summary_text};
ghost use Rattle.flit_report.specs.Report.{content_of};

use crate::content::{Line, Report};
use crate::lines::write_number;
use flit_model::{Outcome, Reply};
use std::alloc::AllocError;

fn done_calls(lines: &[Line]) -> usize
    ensures { result ≡ count_by (λ l. is_done l.outcome) lines.now }
{
    lines
        .iter()
        .filter(|line| {
            matches!(
                line.outcome,
                Outcome::Replied(Reply::Yes | Reply::No | Reply::Found { .. })
            )
        })
        .count()
}

fn stopped_calls(lines: &[Line]) -> usize
    ensures { result ≡ count_by (λ l. is_stopped l.outcome) lines.now }
{
    lines
        .iter()
        .filter(|line| matches!(line.outcome, Outcome::Stopped))
        .count()
}

fn full_calls(lines: &[Line]) -> usize
    ensures { result ≡ count_by (λ l. is_full l.outcome) lines.now }
{
    lines
        .iter()
        .filter(|line| matches!(line.outcome, Outcome::Replied(Reply::Full { .. })))
        .count()
}

fn worn_calls(lines: &[Line]) -> usize
    ensures { result ≡ count_by (λ l. is_worn l.outcome) lines.now }
{
    lines
        .iter()
        .filter(|line| matches!(line.outcome, Outcome::Replied(Reply::Worn { .. })))
        .count()
}

#[tactic(auto, unfolding(crate::specs::Content::summary_text))]
pub(crate) fn write_summary(out: &mut String, report: &Report) -> Result<(), AllocError>
    ensures { OnOk result (Appends out.old out.new (summary_text (content_of report.now))) }
{
    write_number(out, "calls", report.lines.len() as u64)?;
    write_number(out, "done", done_calls(&report.lines) as u64)?;
    write_number(out, "stopped", stopped_calls(&report.lines) as u64)?;
    write_number(out, "full", full_calls(&report.lines) as u64)?;
    write_number(out, "worn", worn_calls(&report.lines) as u64)?;
    write_number(out, "keys", report.keys.len() as u64)
}
