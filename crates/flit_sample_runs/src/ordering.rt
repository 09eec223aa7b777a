ghost use Rattle.std.specs.Prelude.{◌≡◌, ◌≤◌, length};
ghost use Rattle.flit_sample_runs.specs.InOrder.{InOrder};

use flit_sched::Sched;
use flit_structure::Structure;

/// Lets worker 1 run alone until it is out, then worker 2, and so on, up to so many workers.
pub fn run_in_order<S: Structure>(run: &mut Sched<S>, workers: u32)
    requires { workers ≤ length run.old.run.parts }
    ensures order { InOrder (S.meaning run.old.structure) workers run.old.run run.new.run }
    ensures structure { run.new.structure ≡ run.old.structure }
{
    for before in 0..workers {
        run.run_alone(before + 1);
    }
}
