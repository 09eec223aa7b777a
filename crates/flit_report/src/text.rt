ghost use Rattle.std.specs.Prelude.{◌≡◌, OnOk, IfOk};
ghost use Rattle.flit_report.specs.Lines.{Appends};
ghost use Rattle.flit_report.specs.Content.{whole_text, text_of};
ghost use Rattle.flit_report.specs.Report.{content_of};

use crate::content::Report;
use crate::lines::{
    write_calls, write_events, write_history, write_number, write_numbers, write_tallies,
};
use crate::summary::write_summary;
use flit_words::NoMemory;
use std::alloc::{AllocError, Global};

#[tactic(auto, unfolding(crate::specs::Content::whole_text))]
fn write_whole(out: &mut String, report: &Report) -> Result<(), AllocError>
    ensures { OnOk result (Appends out.old out.new (whole_text (content_of report.now))) }
{
    write_events(out, &report.events)?;
    write_calls(out, report.version, &report.lines)?;
    write_history(out, report.version, &report.history)?;
    write_tallies(out, &report.tallies)?;
    write_numbers(out, "keys", &report.keys)?;
    if report.version == 2 {
        write_numbers(out, "values", &report.values)?;
    }
    write_number(out, "free", u64::from(report.free))
}

/// The text of the report, in ASCII, line by line; or its summary. NoMemory comes where there is not memory enough
/// for it.
#[tactic(auto, unfolding(crate::specs::Content::text_of))]
pub fn report_text(alloc: Global, report: &Report) -> Result<Vec<u8>, NoMemory>
    ensures { IfOk result (λ text. text.items ≡ text_of (content_of report.now)) }
{
    let mut out = String::new(alloc);
    if report.summary {
        write_summary(&mut out, report)?;
    } else {
        write_whole(&mut out, report)?;
    }
    Ok(out.into_bytes())
}
