use flit_model::{Call, Item, Outcome, Reply, Work};
use flit_plain::play;
use std::alloc::Global;
use std::process::Abort;
use std::test::Fail;

/// A call that a history has, or may have: that of a worker that was stopped in it.
#[derive(Clone, Copy)]
pub struct Step {
    pub call: Call,
    pub reply: Reply,
    pub must: bool,
}

/// A step of a worker, which is counted from 0.
#[derive(Clone, Copy)]
pub struct Taken {
    pub worker: usize,
    pub step: Step,
}

fn is_completed(reply: Reply) -> bool {
    match reply {
        Reply::Yes | Reply::No | Reply::Found { .. } => true,
        Reply::Full { .. } | Reply::Worn { .. } => false,
    }
}

fn is_read(step: Step) -> bool {
    match step.call {
        Call::Insert(..) | Call::Remove(_) => step.reply == Reply::No,
        Call::Contains(_) | Call::Get(_) => true,
    }
}

/// What a worker's Work and outcomes give to a history: its completed calls in order, and behind them the update of its
/// first call without a reply.
pub fn steps_of(alloc: Global, work: &Work, outcomes: &[Outcome]) -> Result<Vec<Step>, Fail> {
    let mut steps = Vec::new(alloc);
    let mut at = 0_usize;
    for item in &work.items {
        if let Item::Call(call) = *item {
            if at >= outcomes.len() {
                return Err(Fail::from("a call has no outcome"));
            }
            match outcomes[at] {
                Outcome::Replied(reply) => {
                    if is_completed(reply) {
                        steps.push(Step {
                            call,
                            reply,
                            must: true,
                        })?;
                    }
                }
                Outcome::Stopped => {
                    steps.push(Step {
                        call,
                        reply: Reply::Yes,
                        must: false,
                    })?;
                    return Ok(steps);
                }
            }
            at = at.saturating_add(1);
        }
    }
    Ok(steps)
}

/// The value of the one key behind these steps.
fn value_behind(taken: &[Taken]) -> Option<u32> {
    let mut value = None;
    for each in taken {
        match each.step.call {
            Call::Insert(_, put) => {
                if value.is_none() {
                    value = Some(put);
                }
            }
            Call::Remove(_) => value = None,
            Call::Contains(_) | Call::Get(_) => {}
        }
    }
    value
}

fn yes_if(holds: bool) -> Reply {
    if holds { Reply::Yes } else { Reply::No }
}

fn reply_on(value: Option<u32>, call: Call) -> Reply {
    match call {
        Call::Insert(..) => yes_if(value.is_none()),
        Call::Remove(_) | Call::Contains(_) => yes_if(value.is_some()),
        Call::Get(_) => match value {
            Some(value) => Reply::Found { value },
            None => Reply::No,
        },
    }
}

/// The step that comes next of a worker.
fn next_of(lines: &[Vec<Step>], taken: &[Taken], worker: usize) -> Option<Step> {
    let mut count = 0_usize;
    for each in taken {
        if each.worker == worker {
            count = count.saturating_add(1);
        }
    }
    if worker >= lines.len() {
        return None;
    }
    let line = lines[worker].as_slice();
    if count >= line.len() {
        return None;
    }
    Some(line[count])
}

fn is_done(lines: &[Vec<Step>], taken: &[Taken]) -> bool {
    for worker in 0..lines.len() {
        if let Some(step) = next_of(lines, taken, worker) {
            if step.must {
                return false;
            }
        }
    }
    true
}

/// The first worker from this one on whose next step is right behind those taken: a read, or an update that must or may
/// stand there.
fn choice(lines: &[Vec<Step>], taken: &[Taken], from: usize, reads: bool) -> Option<Taken> {
    let value = value_behind(taken);
    for worker in from..lines.len() {
        if let Some(step) = next_of(lines, taken, worker) {
            let fits = step.must || !is_read(step);
            if fits && is_read(step) == reads && reply_on(value, step.call) == step.reply {
                return Some(Taken { worker, step });
            }
        }
    }
    None
}

/// Merges the steps of all workers, each worker's in order, into a history that is right at each step, has all that must
/// stand there, and ends with this value of the one key. A read that is right is taken at once, since it changes nothing.
pub fn merged(
    alloc: Global,
    lines: &[Vec<Step>],
    last: Option<u32>,
) -> Result<Option<Vec<Taken>>, Fail> {
    let mut taken = Vec::new(alloc);
    let mut from = 0_usize;
    for _ in 0..100000 {
        if is_done(lines, taken.as_slice()) && value_behind(taken.as_slice()) == last {
            return Ok(Some(taken));
        }
        let read = if from == 0 {
            choice(lines, taken.as_slice(), 0, true)
        } else {
            None
        };
        let next = match read {
            Some(read) => Some(read),
            None => choice(lines, taken.as_slice(), from, false),
        };
        from = match next {
            Some(step) => {
                taken.push(step)?;
                0
            }
            None => match without_last_update(&mut taken) {
                Some(worker) => worker.saturating_add(1),
                None => return Ok(None),
            },
        };
    }
    Err(Fail::from("too many ways"))
}

/// Takes the last update back, with the reads behind it, and answers its worker.
fn without_last_update(taken: &mut Vec<Taken>) -> Option<usize> {
    for _ in 0..taken.len() {
        let last = taken.pop()?;
        if !is_read(last.step) {
            return Some(last.worker);
        }
    }
    None
}

/// A plain map is asked the calls of a history and gives just its replies.
pub fn is_replayed(rt: &impl Abort, alloc: Global, history: &[Taken]) -> Result<(), Fail> {
    let mut calls = Vec::new(alloc);
    for each in history {
        calls.push(each.step.call)?;
    }
    let replies = play(alloc, calls.as_slice())?;
    assert_eq!(rt; replies.len(), history.len());
    for (at, each) in history.iter().enumerate() {
        assert!(rt; at < replies.len());
        assert_eq!(rt; replies[at], each.step.reply);
    }
    Ok(())
}
