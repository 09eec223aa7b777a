ghost use Rattle.std.specs.Prelude.{◌≡◌, ℕ, ◌+◌, ◌-◌, ◌<◌, ◌≤◌, Some, None, length, replicate, IsSome};
ghost use Rattle.std.specs.List.{AllByRecursion};
ghost use Rattle.flit_model.specs.declared.calls.Outcome.TheVariants.{Stopped};
ghost use Rattle.flit_table.specs.Passes.{BelongsTo, MayWork, view_of, own_name, own_names, own_calls};
ghost use Rattle.flit_table.specs.Steps.{meaning_of};
ghost use Rattle.flit_workers.specs.Works.{IsRightItem, IsWorked, calls_in};

use crate::gates::Gate;
use crate::items::{Came, item_made, item_within};
use flit_model::{Item, Outcome, Work};
use flit_structure::Structure;
use flit_table::{Pass, Running};
use std::sync::Wait;

// Makes some items in order, and begins none where so many events were made.
fn work_within<S: Structure, G: Gate>(
    running: &Running<S>,
    pass: &mut Pass<S>,
    items: &[Item],
    stop: u64,
    outcomes: &mut [Outcome],
    gate: &G,
)
    requires pass { MayWork S.meaning running.now pass.old }
    requires right { AllByRecursion (IsRightItem (meaning_of S.meaning running.now).layout)
        items.now }
    requires count { own_calls pass.old + length items.now ≤ 4294967295 }
    requires stopped { outcomes.old ≡ replicate (length (calls_in items.now)) Stopped }
    ensures pass { BelongsTo S.meaning running.now pass.new }
    ensures worked { IsWorked (meaning_of S.meaning running.now) running.now.origin items.now
        (Some stop) outcomes.new (own_name pass.old) (own_calls pass.old) (view_of pass.old)
        pass.new }
{
    let mut made = 0;
    let mut replied = 0;
    for item in items {
        if made == stop {
            return;
        }
        let Came::Made { reply, events } = item_within(running, pass, *item, stop - made, gate)
        else {
            return;
        };
        made += events;
        if let Some(reply) = reply {
            outcomes[replied] = Outcome::Replied(reply);
            replied += 1;
        }
    }
}

// Makes all of some items in order.
fn work_all<S: Structure, G: Gate, R: Wait>(
    rt: &R,
    running: &Running<S>,
    pass: &mut Pass<S>,
    items: &[Item],
    outcomes: &mut [Outcome],
    gate: &G,
)
    requires pass { MayWork S.meaning running.now pass.old }
    requires right { AllByRecursion (IsRightItem (meaning_of S.meaning running.now).layout)
        items.now }
    requires count { own_calls pass.old + length items.now ≤ 4294967295 }
    requires stopped { outcomes.old ≡ replicate (length (calls_in items.now)) Stopped }
    ensures pass { BelongsTo S.meaning running.now pass.new }
    ensures worked { IsWorked (meaning_of S.meaning running.now) running.now.origin items.now None
        outcomes.new (own_name pass.old) (own_calls pass.old) (view_of pass.old) pass.new }
{
    let mut replied = 0;
    for item in items {
        if let Some(reply) = item_made(rt, running, pass, *item, gate) {
            outcomes[replied] = Outcome::Replied(reply);
            replied += 1;
        }
    }
}

/// Makes the items of a Work in order through a pass, as far as its stop lets it.
pub(crate) fn work<S: Structure, G: Gate, R: Wait>(
    rt: &R,
    running: &Running<S>,
    pass: &mut Pass<S>,
    work: &Work,
    outcomes: &mut [Outcome],
    gate: &G,
)
    requires pass { MayWork S.meaning running.now pass.old }
    requires right { AllByRecursion (IsRightItem (meaning_of S.meaning running.now).layout)
        work.now.items.items }
    requires count { own_calls pass.old + length work.now.items.items ≤ 4294967295 }
    requires stopped { outcomes.old ≡ replicate (length (calls_in work.now.items.items)) Stopped }
    ensures pass { BelongsTo S.meaning running.now pass.new }
    ensures worked { IsWorked (meaning_of S.meaning running.now) running.now.origin
        work.now.items.items work.now.stop outcomes.new (own_name pass.old) (own_calls pass.old)
        (view_of pass.old) pass.new }
{
    match work.stop {
        None => work_all(rt, running, pass, work.items.as_slice(), outcomes, gate),
        Some(stop) => work_within(running, pass, work.items.as_slice(), stop, outcomes, gate),
    }
}
