ghost use Rattle.flit_generator.specs.MadeTraces.{MakesTraces, TellsWorkers, SharesNoKey};

/// The text of the generator is a trace, and its calls are those that the generator makes.
pub fn a_trace_is_made()
    ensures { MakesTraces }
{}

/// No key belongs to two workers: each call's worker is the rest of its key by the number of workers, plus 1.
pub fn keys_of_one_worker()
    ensures rest { TellsWorkers }
    ensures one { SharesNoKey }
{}
