ghost use Rattle.std.specs.Prelude.{◌≡◌, ◌+◌, ◌<◌, ◌≤◌, ◌++◌, [], ◌∷◌, IfOk, IfErr, length, map};
ghost use Rattle.std.specs.List.{AllByRecursion};
ghost use Rattle.std.specs.Vec.{vec_capacity, vec_len};
ghost use Rattle.flit_table.specs.Passes.{BelongsTo};
ghost use Rattle.flit_table.specs.Steps.{meaning_of};
ghost use Rattle.flit_workers.specs.Gathered.{HasTakenAll, HasGathered};

use crate::ends::End;
use flit_model::{Outcome, Work};
use flit_structure::Structure;
use flit_table::{Pass, Running};
use flit_words::NoMemory;
use std::alloc::Global;

// Puts the Work and the outcomes of an End behind others, and answers its pass.
fn taken_apart<S: Structure>(
    end: End<S>,
    works: &mut Vec<Work>,
    outcomes: &mut Vec<Vec<Outcome>>,
) -> Pass<S>
    requires works { vec_len works.old < vec_capacity works.old }
    requires outcomes { vec_len outcomes.old < vec_capacity outcomes.old }
    ensures pass { result ≡ end.pass }
    ensures works { works.new.items ≡ works.old.items ++ end.work ∷ [] }
    ensures outcomes { outcomes.new.items ≡ outcomes.old.items ++ end.outcomes ∷ [] }
    ensures len { (vec_len works.new ≡ vec_len works.old + 1)
        × (vec_len outcomes.new ≡ vec_len outcomes.old + 1) }
    ensures capacity { (vec_capacity works.new ≡ vec_capacity works.old)
        × (vec_capacity outcomes.new ≡ vec_capacity outcomes.old) }
{
    let End {
        work,
        outcomes: replied,
        pass,
    } = end;
    works.push_reserved(work);
    outcomes.push_reserved(replied);
    pass
}

// A pass takes in those of some Ends, in order, whose Works and outcomes are put behind others.
fn take_in<S: Structure>(
    running: &Running<S>,
    pass: &mut Pass<S>,
    ends: Vec<End<S>>,
    works: &mut Vec<Work>,
    outcomes: &mut Vec<Vec<Outcome>>,
)
    requires pass { BelongsTo S.meaning running.now pass.old }
    requires ends { AllByRecursion (λ e. BelongsTo S.meaning running.now e.pass) ends.items }
    requires works { vec_len works.old + length ends.items ≤ vec_capacity works.old }
    requires outcomes { vec_len outcomes.old + length ends.items ≤ vec_capacity outcomes.old }
    ensures pass { BelongsTo S.meaning running.now pass.new }
    ensures taken { HasTakenAll (meaning_of S.meaning running.now) (map (λ e. e.pass) ends.items)
        pass.old pass.new }
    ensures works { works.new.items ≡ works.old.items ++ map (λ e. e.work) ends.items }
    ensures outcomes { outcomes.new.items ≡ outcomes.old.items
        ++ map (λ e. e.outcomes) ends.items }
{
    for end in ends {
        let other = taken_apart(end, works, outcomes);
        running.join(pass, other);
    }
}

/// Joins the passes of all Ends, in their order, into the first, and gives the Works and outcomes back in order. The pass
/// then has all names of the Ends, with the items, the events, the placed reads and the kept operations of each. At
/// NoMemory nothing was joined, and the Ends are handed back unchanged.
pub fn gather<S: Structure>(
    running: &Running<S>,
    alloc: Global,
    mut ends: Vec<End<S>>,
) -> Result<(Pass<S>, Vec<Work>, Vec<Vec<Outcome>>), (Vec<End<S>>, NoMemory)>
    requires some { 0 < length ends.items }
    requires passes { AllByRecursion (λ e. BelongsTo S.meaning running.now e.pass) ends.items }
    ensures pass { IfOk result (λ r. BelongsTo S.meaning running.now r.0) }
    ensures gathered { IfOk result (λ r. HasGathered (meaning_of S.meaning running.now)
        (map (λ e. e.pass) ends.items) r.0) }
    ensures works { IfOk result (λ r. r.1.items ≡ map (λ e. e.work) ends.items) }
    ensures outcomes { IfOk result (λ r. r.2.items ≡ map (λ e. e.outcomes) ends.items) }
    ensures refused { IfErr result (λ e. e.0.items ≡ ends.items) }
{
    let Ok(mut works) = Vec::with_capacity(alloc, ends.len()) else {
        return Err((ends, NoMemory));
    };
    let Ok(mut outcomes) = Vec::with_capacity(alloc, ends.len()) else {
        return Err((ends, NoMemory));
    };
    let first = ends.remove(0);
    let mut pass = taken_apart(first, &mut works, &mut outcomes);
    take_in(running, &mut pass, ends, &mut works, &mut outcomes);
    Ok((pass, works, outcomes))
}
