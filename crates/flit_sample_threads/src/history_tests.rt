use crate::merging::{is_replayed, merged, steps_of};
use crate::worker_tests::{layout_of, opened};
use crate::working::works_are_right;
use crossbeam_utils::atomic::AtomicCell;
use flit_model::{Ahead, Call, Item, Outcome, Recovered, Reply, Work};
use flit_place::Adjacent;
use flit_thread_runs::run_recovered;
use flit_workers::{Gate, NoGate};
use std::alloc::Global;
use std::process::Abort;
use std::sync::Wait;
use std::test::Fail;
use std::thread::{Threads, yield_now};

/// The items of a worker, by its number: all begin otherwise, and all put in, find and take out one key.
fn items_of(alloc: Global, worker: u32) -> Result<Vec<Item>, Fail> {
    let calls = [
        Call::Insert(7, worker),
        Call::Get(7),
        Call::Remove(7),
        Call::Contains(7),
    ];
    let mut items = Vec::new(alloc);
    items.push(Item::Evict(0))?;
    for at in 0..4 {
        items.push(Item::Call(calls[(worker as usize % 4 + at) % 4]))?;
    }
    items.push(Item::Evict(1))?;
    Ok(items)
}

fn works_of(alloc: Global, workers: u32, stop: Option<u64>) -> Result<Vec<Work>, Fail> {
    let mut works = Vec::new(alloc);
    for worker in 0..workers {
        works.push(Work {
            items: items_of(alloc, worker)?,
            stop,
        })?;
    }
    Ok(works)
}

/// The outcomes of so many workers with such Works, and what recovery finds at their end.
fn run<G: Gate + Sync, R: Threads + Wait + Abort + Sync>(
    rt: &R,
    alloc: Global,
    workers: u32,
    works: Vec<Work>,
    ahead: &Ahead,
    gate: &G,
) -> Result<(Vec<Vec<Outcome>>, Recovered), Fail> {
    let layout = layout_of(rt, &Adjacent, workers);
    let (running, pass) = opened(rt, alloc, Adjacent, &layout)?;
    assert!(rt; works.len() == layout.workers as usize);
    works_are_right(rt, &layout, works.as_slice());
    let (ran, found) = run_recovered(rt, alloc, running, pass, works, ahead, gate)?;
    Ok((ran.outcomes, found))
}

/// The value of the key that was found, where it was.
fn value_found(rt: &impl Abort, found: &Recovered) -> Option<u32> {
    if found.keys.is_empty() {
        return None;
    }
    assert_eq!(rt; found.keys.as_slice(), [7].as_slice());
    assert_eq!(rt; found.values.len(), 1);
    Some(found.values[0])
}

/// The outcomes are those of one history, with each completed call once and in order and at most one unfinished update of
/// each worker, behind which a plain map holds what recovery found.
fn stand_in_one_history(
    rt: &impl Abort,
    alloc: Global,
    works: &[Work],
    outcomes: &[Vec<Outcome>],
    found: &Recovered,
) -> Result<(), Fail> {
    assert_eq!(rt; works.len(), outcomes.len());
    let mut lines = Vec::new(alloc);
    for (at, work) in works.iter().enumerate() {
        assert!(rt; at < outcomes.len());
        lines.push(steps_of(alloc, work, outcomes[at].as_slice())?)?;
    }
    let last = value_found(rt, found);
    match merged(alloc, lines.as_slice(), last)? {
        Some(history) => is_replayed(rt, alloc, history.as_slice()),
        None => Err(Fail::from("no history has these outcomes")),
    }
}

/// Runs such Works to their end, and looks for their history.
fn run_and_replay<R: Threads + Wait + Abort + Sync>(
    rt: &R,
    alloc: Global,
    workers: u32,
    stop: Option<u64>,
    ahead: &Ahead,
) -> Result<(), Fail> {
    let works = works_of(alloc, workers, stop)?;
    let (outcomes, found) = run(rt, alloc, workers, works, ahead, &NoGate)?;
    let same = works_of(alloc, workers, stop)?;
    stand_in_one_history(rt, alloc, same.as_slice(), outcomes.as_slice(), &found)
}

/// Without a stop, and with each small one, for both kinds of image.
fn replayed<R: Threads + Wait + Abort + Sync>(
    rt: &R,
    alloc: Global,
    workers: u32,
) -> Result<(), Fail> {
    run_and_replay(rt, alloc, workers, None, &Ahead::None)?;
    for stop in 0..60 {
        run_and_replay(rt, alloc, workers, Some(stop), &Ahead::None)?;
        run_and_replay(rt, alloc, workers, Some(stop), &Ahead::All)?;
    }
    Ok(())
}

#[test]
fn one_worker_is_replayed(rt: HostRuntime) -> Result<(), Fail> {
    replayed(&rt, rt.alloc(), 1)
}

#[test]
fn two_workers_are_replayed(rt: HostRuntime) -> Result<(), Fail> {
    replayed(&rt, rt.alloc(), 2)
}

#[test]
fn eight_workers_are_replayed(rt: HostRuntime) -> Result<(), Fail> {
    replayed(&rt, rt.alloc(), 8)
}

/// No history has an insert that was answered No before any other, or a value that nobody put in.
#[test]
fn wrong_outcomes_have_no_history(rt: HostRuntime) -> Result<(), Fail> {
    let alloc = rt.alloc();
    let works = works_of(alloc, 1, None)?;
    for value in 0..2 {
        let mut outcomes = Vec::new(alloc);
        outcomes.push(Outcome::Replied(Reply::Yes))?;
        outcomes.push(Outcome::Replied(Reply::Found { value }))?;
        outcomes.push(Outcome::Replied(Reply::Yes))?;
        outcomes.push(Outcome::Replied(Reply::No))?;
        let mut lines = Vec::new(alloc);
        assert_eq!(&rt; works.len(), 1);
        lines.push(steps_of(alloc, &works[0], outcomes.as_slice())?)?;
        let history = merged(alloc, lines.as_slice(), None)?;
        assert_eq!(&rt; history.is_some(), value == 0);
        assert!(&rt; merged(alloc, lines.as_slice(), Some(0))?.is_none());
    }
    Ok(())
}

/// Holds the first call of one worker until the other was answered, for some turns, and counts what it is told.
#[derive(Drop)]
struct Counting {
    held: u32,
    answered: AtomicCell<bool>,
    late: AtomicCell<bool>,
    begun: AtomicCell<u32>,
    ended: AtomicCell<u32>,
}

impl Gate for Counting {
    fn before(&self, worker: u32, number: u32) {
        self.begun.fetch_add(1);
        if worker != self.held || number != 1 {
            return;
        }
        for _ in 0..10000000 {
            if self.answered.load() {
                return;
            }
            yield_now();
        }
        self.late.store(true);
    }

    fn after(&self, worker: u32, _number: u32, _reply: Reply) {
        self.ended.fetch_add(1);
        if worker != self.held {
            self.answered.store(true);
        }
    }
}

/// How many outcomes are replies.
fn replies_in(outcomes: &[Vec<Outcome>]) -> u32 {
    let mut count = 0_u32;
    for of_worker in outcomes {
        for outcome in of_worker {
            if *outcome != Outcome::Stopped {
                count = count.saturating_add(1);
            }
        }
    }
    count
}

/// Two workers with stops, of which one is held until the other was answered: the gate is told of each call that is begun,
/// and of each reply.
fn gated<R: Threads + Wait + Abort + Sync>(
    rt: &R,
    alloc: Global,
    held: u32,
    stop: u64,
) -> Result<(), Fail> {
    let gate = Counting {
        held,
        answered: AtomicCell::new(false),
        late: AtomicCell::new(false),
        begun: AtomicCell::new(0),
        ended: AtomicCell::new(0),
    };
    let works = works_of(alloc, 2, Some(stop))?;
    let (outcomes, found) = run(rt, alloc, 2, works, &Ahead::None, &gate)?;
    assert!(rt; !gate.late.load());
    let replies = replies_in(outcomes.as_slice());
    assert_eq!(rt; gate.ended.load(), replies);
    assert!(rt; replies <= gate.begun.load() && gate.begun.load() <= replies.saturating_add(2));
    let same = works_of(alloc, 2, Some(stop))?;
    stand_in_one_history(rt, alloc, same.as_slice(), outcomes.as_slice(), &found)
}

#[test]
fn workers_with_stops_are_held(rt: HostRuntime) -> Result<(), Fail> {
    for stop in 100..104 {
        gated(&rt, rt.alloc(), 1, stop)?;
        gated(&rt, rt.alloc(), 2, stop)?;
    }
    Ok(())
}
