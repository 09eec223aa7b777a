ghost use Rattle.std.specs.Prelude.{◌≡◌, IfOk};
ghost use Rattle.flit_report.specs.Report.{content_of};
ghost use Rattle.flit_run_runs.specs.Tellings.{TellsFound, IsFoundImage};

use flit_lawful_images::recover_lawful_owned;
use flit_model::Image;
use flit_report::{Line, Report};
use flit_step_runs::{count_rows, version_of};
use flit_words::{Layout, NoMemory};
use std::alloc::Global;

/// The report of these lines and of what recovery finds in an image. The error is NoMemory alone.
pub(crate) fn tell(
    alloc: Global,
    layout: &Layout,
    lines: Vec<Line>,
    image: Image,
    summary: bool,
) -> Result<Report, NoMemory>
    requires { IsFoundImage layout.now image }
    ensures summary { IfOk result (λ r. r.summary ≡ summary) }
    ensures lines { IfOk result (λ r. r.lines.items ≡ lines.items) }
    ensures found { IfOk result (λ r. TellsFound layout.now image (content_of r)) }
{
    let rows = image.rows;
    let found = recover_lawful_owned(alloc, image)?;
    let free = count_rows(&found.free, rows);
    Ok(Report {
        summary,
        version: version_of(layout),
        events: Vec::new(alloc),
        lines,
        history: Vec::new(alloc),
        tallies: Vec::new(alloc),
        keys: found.keys,
        values: found.values,
        free,
    })
}
