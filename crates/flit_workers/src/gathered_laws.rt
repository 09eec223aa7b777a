ghost use Rattle.std.specs.Prelude.{◌≡◌, ◌≤◌, List, length, map};
ghost use Rattle.std.specs.List.{AllByRecursion};
ghost use Rattle.flit_model.specs.declared.calls.Work.{Work as A_work};
ghost use Rattle.flit_table.specs.declared.passes.Pass.{Pass as A_pass};
ghost use Rattle.flit_table.specs.declared.views.View.{View as A_view};
ghost use Rattle.flit_table.specs.Closing.{HasAllNames};
ghost use Rattle.flit_table.specs.Passes.{BelongsTo, view_of};
ghost use Rattle.flit_table.specs.Steps.{Home, meaning_of};
ghost use Rattle.flit_workers.specs.declared.ends.End.{End as An_end};
ghost use Rattle.flit_workers.specs.Ends.{HaveEnded};
ghost use Rattle.flit_workers.specs.Gathered.{HasGathered};

use flit_structure::Structure;

/// The passes of workers that have ended may be gathered; and where the workers began with the first name and are as many
/// as the layout has, the pass that has gathered them has all names.
pub fn ended_gather<S: Structure>()
    ensures belong { (home : Home S) (v : A_view S S.Op) (works : List A_work)
        (ends : List (An_end S S.Op)) → HaveEnded S.meaning home v works ends →
        AllByRecursion (λ e. BelongsTo S.meaning home e.pass) ends }
    ensures names { (home : Home S) (v : A_view S S.Op) (works : List A_work)
        (ends : List (An_end S S.Op)) (pass : A_pass S S.Op) → v.name ≡ 1 →
        (meaning_of S.meaning home).layout.workers ≤ length works →
        HaveEnded S.meaning home v works ends → HasGathered (meaning_of S.meaning home)
        (map (λ e. e.pass) ends) pass → HasAllNames (meaning_of S.meaning home) (view_of pass) }
{}
