ghost use Rattle.flit_structure.specs.Meanings.{IsServed};
ghost use Rattle.flit_table.specs.Steps.{meaning_of};
ghost use Rattle.flit_table.specs.Passes.{BelongsTo};

use crate::Counted;
use crate::openings::{HAS, PUT, on_fresh_words};
use flit_model::{Call, Reply};
use flit_structure::Structure;
use flit_table::{Pass, Running, Within};
use flit_words::NoMemory;
use std::alloc::Global;

/// More events than any call makes that is alone.
const STEPS: u64 = 1000;

/// Makes one more call, and answers with its reply and how many events it made; None where no more calls can be
/// counted, or where it was stopped.
fn answer<S: Structure>(
    running: &Running<S>,
    pass: &mut Pass<S>,
    call: Call,
) -> Option<(Reply, u64)>
    requires pass { BelongsTo S.meaning running.now pass.old }
    requires served { IsServed (meaning_of S.meaning running.now).layout call }
    ensures pass { BelongsTo S.meaning running.now pass.new }
{
    if pass.is_stopped() || pass.calls() == u32::MAX {
        return None;
    }
    match running.answer_within(pass, call, STEPS) {
        Within::Done { reply, made } => Some((reply, made)),
        Within::Stopped => None,
    }
}

/// Makes the same call again and again.
pub(crate) fn answers<S: Structure>(
    running: &Running<S>,
    pass: &mut Pass<S>,
    call: Call,
    times: u32,
) -> Counted
    requires pass { BelongsTo S.meaning running.now pass.old }
    requires served { IsServed (meaning_of S.meaning running.now).layout call }
    ensures pass { BelongsTo S.meaning running.now pass.new }
{
    let mut counted = Counted::default();
    for _ in 0..times {
        let Some((reply, made)) = answer(running, pass, call) else {
            break;
        };
        counted = counted.and(Counted {
            yes: u64::from(reply == Reply::Yes),
            events: made,
        });
    }
    counted
}

/// Contains of the one key, which is there, on words that threads share.
pub(crate) fn contains(alloc: Global, times: u32) -> Result<Counted, NoMemory> {
    let (sample, start) = on_fresh_words(alloc)?;
    let (running, mut pass) = Running::open(alloc, sample, start)?;
    let put = answers(&running, &mut pass, PUT, 1);
    let found = answers(&running, &mut pass, HAS, times);
    Ok(Counted {
        yes: found.yes,
        events: put.events.wrapping_add(found.events),
    })
}
