ghost use Rattle.std.specs.Prelude.{◌≡◌, ℕ, List};
ghost use Rattle.flit_trace.specs.Contents.{Content};
ghost use Rattle.flit_trace.specs.Drafts.{IsPlace};
ghost use Rattle.flit_trace.specs.Grammar.{IsTrace};
ghost use Rattle.flit_trace.specs.AboutTraces.{OneFault, TraceWithoutFault, NoEventsFault, LayoutAccepted, FewLines, LinesRight, TurnsRight, LinesRise, ScriptLinesRise, InScriptOfWorker, StartIsValued, StartIsWhole, FilledWithZeros};

/// Each text has at most one result: one content, or one fault, and not both. No fault has the bound on events.
pub fn one_result()
    ensures content { (bytes : List ℕ) (a b : Content) → IsTrace bytes a → IsTrace bytes b → a ≡ b }
    ensures fault { OneFault }
    ensures apart { TraceWithoutFault }
    ensures no_events { NoEventsFault }
{}

/// The numbers of a trace are within the limits, each call or evict line is right for its layout and workers, and each
/// turn line names one of its workers.
pub fn within_limits()
    ensures accepted { LayoutAccepted }
    ensures place { (bytes : List ℕ) (c : Content) → IsTrace bytes c → IsPlace c.head.place }
    ensures few { FewLines }
    ensures right { LinesRight }
    ensures turns { TurnsRight }
{}

/// The line numbers of the call and evict lines rise, in each script too, and a line stands in the script of its
/// worker alone. So the scripts, merged by line number, are the call and evict lines.
pub fn merged_scripts()
    ensures lines { LinesRise }
    ensures scripts { ScriptLinesRise }
    ensures same { InScriptOfWorker }
{}

/// A start image stands in version 2 alone and has a word for each word of the trace's layout; of a block of
/// version 1, whose words are those of the layout without values, it has value 0 for each row.
pub fn start_images()
    ensures valued { StartIsValued }
    ensures whole { StartIsWhole }
    ensures zeros { FilledWithZeros }
{}
