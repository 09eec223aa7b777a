ghost use Rattle.flit_run_structures.specs.Runs.{TracesRun};

use flit_structures::traces_play;

/// The works of a trace can be run on the structure that it names, from what recovery finds where the trace starts: it has
/// the trace's layout, as much room as rows are free there, and the trace can be played on it.
pub fn traces_run()
    ensures { TracesRun }
{
    traces_play();
}
