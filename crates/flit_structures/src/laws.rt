ghost use Rattle.flit_structures.specs.Headlines.{TracesSayHeadline};
ghost use Rattle.flit_structures.specs.Openings.{HeadsOpen, TracesOpen, TracesPlay};
ghost use Rattle.flit_structures.specs.RightTraces.{RightTracesAreAnswered};
ghost use Rattle.flit_structures.specs.Structures.{RoomsAreFree};

use flit_model::one_recovery;
use flit_recover::{one_damage_of_lists, one_damage_of_trees};
use flit_sched::recovered_opens;
use flit_trace::{merged_scripts, one_result, within_limits};

/// The structure that a head names may be opened at what recovery finds in words of its layout, unless its tags have a slot
/// for each line of eight words.
pub fn heads_open()
    ensures { HeadsOpen }
{
    recovered_opens();
}

/// The structure that a trace names may be opened at what recovery finds where the trace starts, with the works of the
/// trace, unless its tags have a slot for each line of eight words.
pub fn traces_open()
    ensures { TracesOpen }
{
    heads_open();
    recovered_opens();
    within_limits();
}

/// A trace can be played on the structure that it names, from what recovery finds where the trace starts: this opens there,
/// the lines are in order, and each line and each turn line names a worker. Traces with a slot for each line of eight words
/// are left out.
pub fn traces_play()
    ensures { TracesPlay }
{
    traces_open();
    within_limits();
    merged_scripts();
}

/// Bytes within the limit that are a trace which is played, with a lawful start image, have their answer; where there is none,
/// there was no memory.
pub fn right_traces_are_answered()
    ensures { RightTracesAreAnswered }
{
    one_result();
    within_limits();
    one_damage_of_lists();
    one_damage_of_trees();
}

/// The structure that a trace names has the layout of the trace, and as many rows for its calls as are free at the start.
pub fn rooms_are_free()
    ensures { RoomsAreFree }
{}

/// A report of the run of a trace on the structure that it names says the headline, over the events of that run. Traces with a
/// slot for each line of eight words are left out.
pub fn traces_say_headline()
    ensures { TracesSayHeadline }
{
    traces_play();
    rooms_are_free();
    within_limits();
    one_recovery();
}
