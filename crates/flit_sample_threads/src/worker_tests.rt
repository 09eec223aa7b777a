ghost use Rattle.std.specs.Prelude.{◌≡◌, ℕ, ◌≤◌, ◌<◌, IfOk, true};
ghost use Rattle.flit_words.specs.Layouts.{words_of};
ghost use Rattle.flit_one_key.specs.Steps.{IsSmall};
ghost use Rattle.flit_sample.specs.Sampling.{sample};
ghost use Rattle.flit_table.specs.Passes.{MayWork, IsFirst, own_calls};

use crate::working::run_right;
use crossbeam_utils::atomic::AtomicCell;
use flit_model::{Call, Item, Outcome, Reply, Work};
use flit_place::{Adjacent, Placement};
use flit_recover::fresh;
use flit_sample::Sample;
use flit_sample_runs::open_words;
use flit_table::{Pass, Running};
use flit_words::{Kind, Layout, Link, Word};
use flit_workers::{Gate, NoGate};
use std::alloc::Global;
use std::process::Abort;
use std::sync::Wait;
use std::test::Fail;
use std::thread::{Threads, yield_now};

/// A layout of one row with values.
pub fn layout_of<P: Placement>(rt: &impl Abort, place: &P, workers: u32) -> Layout
    ensures small { IsSmall result }
    ensures workers { result.workers ≡ workers }
    ensures slots { result.slots ≡ P.slots_for place.now (words_of result) }
{
    assert!(rt; 1 <= workers && workers <= 64);
    let slots = place.slots(4);
    assert!(rt; slots <= 4194320);
    Layout {
        kind: Kind::List,
        buckets: 1,
        rows: 1,
        slots,
        workers,
        limit: 100,
        values: true,
    }
}

/// The sample on fresh words.
pub fn opened<P: Placement + Drop>(
    rt: &impl Abort,
    alloc: Global,
    place: P,
    layout: &Layout,
) -> Result<(Running<Sample<P>>, Pass<Sample<P>>), Fail>
    requires small { IsSmall layout.now }
    requires slots { layout.now.slots ≡ P.slots_for place (words_of layout.now) }
    ensures works { IfOk result (λ r. MayWork (sample P.place) r.0 r.1) }
    ensures first { IfOk result (λ r. own_calls r.1 ≡ 0) }
    ensures layout { IfOk result (λ r. r.0.origin.structure.value.layout ≡ layout.now) }
    ensures opening { IfOk result (λ r. IsFirst (sample P.place r.0.origin.structure.value)
        r.0.origin r.1) }
{
    let start = fresh(alloc, layout)?;
    let link_word = layout.row_word(1, 1) as usize;
    assert!(rt; link_word < start.image.words.len());
    assert!(rt; !Link::of(Word::unpack(start.image.words[link_word]).value).mark);
    Ok(open_words(alloc, *layout, place, start)?)
}

/// Works of one call each, with this stop.
fn inserts(alloc: Global, workers: u32, stop: Option<u64>) -> Result<Vec<Work>, Fail> {
    let mut works = Vec::new(alloc);
    for worker in 0..workers {
        let mut items = Vec::new(alloc);
        items.push(Item::Call(Call::Insert(7, worker)))?;
        items.push(Item::Evict(0))?;
        items.push(Item::Call(Call::Contains(7)))?;
        works.push(Work { items, stop })?;
    }
    Ok(works)
}

/// How many inserts put the key in, how many calls found it, and how many were stopped.
fn run<G: Gate + Sync, R: Threads + Wait + Abort + Sync>(
    rt: &R,
    alloc: Global,
    workers: u32,
    works: Vec<Work>,
    gate: &G,
) -> Result<Vec<Vec<Outcome>>, Fail> {
    let layout = layout_of(rt, &Adjacent, workers);
    let (running, pass) = opened(rt, alloc, Adjacent, &layout)?;
    let ends = run_right(rt, alloc, &running, pass, &layout, works, gate)?;
    let mut outcomes = Vec::new(alloc);
    for end in ends {
        outcomes.push(end.outcomes)?;
    }
    Ok(outcomes)
}

/// How many of the outcomes are this one.
fn count(outcomes: &[Vec<Outcome>], at: usize, which: Outcome) -> u64 {
    let mut count = 0_u64;
    for of_worker in outcomes {
        if at < of_worker.len() && of_worker[at] == which {
            count = count.saturating_add(1);
        }
    }
    count
}

#[test]
fn workers_run_to_their_end(rt: HostRuntime) -> Result<(), Fail> {
    let works = inserts(rt.alloc(), 8, None)?;
    let outcomes = run(&rt, rt.alloc(), 8, works, &NoGate)?;
    assert_eq!(&rt; outcomes.len(), 8);
    assert_eq!(&rt; count(&outcomes, 0, Outcome::Replied(Reply::Yes)), 1);
    assert_eq!(&rt; count(&outcomes, 0, Outcome::Stopped), 0);
    assert_eq!(&rt; count(&outcomes, 1, Outcome::Stopped), 0);
    Ok(())
}

/// With every stop the calls that have no reply come last.
fn stopped(
    rt: &(impl Threads + Wait + Abort + Sync),
    alloc: Global,
    workers: u32,
) -> Result<(), Fail> {
    for stop in 0..40 {
        let works = inserts(alloc, workers, Some(stop))?;
        let outcomes = run(rt, alloc, workers, works, &NoGate)?;
        for of_worker in &outcomes {
            assert_eq!(rt; of_worker.len(), 2);
            assert!(rt; of_worker[0] != Outcome::Stopped || of_worker[1] == Outcome::Stopped);
        }
        assert!(rt; count(&outcomes, 0, Outcome::Replied(Reply::Yes)) <= 1);
        if stop < 2 {
            assert_eq!(rt; count(&outcomes, 0, Outcome::Stopped), u64::from(workers));
        }
    }
    Ok(())
}

#[test]
fn two_workers_stop_anywhere(rt: HostRuntime) -> Result<(), Fail> {
    stopped(&rt, rt.alloc(), 2)
}

#[test]
fn eight_workers_stop_anywhere(rt: HostRuntime) -> Result<(), Fail> {
    stopped(&rt, rt.alloc(), 8)
}

/// Holds the call of one worker until the call of another was answered, for some turns.
#[derive(Drop)]
struct Holding {
    held: u32,
    answered: AtomicCell<bool>,
    late: AtomicCell<bool>,
    begun: AtomicCell<u32>,
    ended: AtomicCell<u32>,
}

impl Gate for Holding {
    fn before(&self, worker: u32, number: u32) {
        if number == 1 {
            self.begun.fetch_add(worker);
        }
        if worker != self.held || number != 1 {
            return;
        }
        for _ in 0..10000000 {
            if self.answered.load() {
                return;
            }
            yield_now();
        }
        self.late.store(true);
    }

    fn after(&self, worker: u32, number: u32, _reply: Reply) {
        if number == 1 {
            self.ended.fetch_add(worker);
        }
        if worker != self.held && number == 1 {
            self.answered.store(true);
        }
    }
}

/// Two workers, of which one is held until the other was answered.
fn gated(rt: &(impl Threads + Wait + Abort + Sync), alloc: Global, held: u32) -> Result<(), Fail> {
    let gate = Holding {
        held,
        answered: AtomicCell::new(false),
        late: AtomicCell::new(false),
        begun: AtomicCell::new(0),
        ended: AtomicCell::new(0),
    };
    let mut works = Vec::new(alloc);
    for worker in 1..3 {
        let mut items = Vec::new(alloc);
        items.push(Item::Call(Call::Insert(7, worker)))?;
        works.push(Work { items, stop: None })?;
    }
    let outcomes = run(rt, alloc, 2, works, &gate)?;
    assert!(rt; !gate.late.load());
    assert_eq!(rt; gate.begun.load(), 3);
    assert_eq!(rt; gate.ended.load(), 3);
    assert_eq!(rt; outcomes.len(), 2);
    let other = if held == 1 { 1 } else { 0 };
    assert_eq!(rt; outcomes[other].len(), 1);
    assert_eq!(rt; outcomes[other][0], Outcome::Replied(Reply::Yes));
    Ok(())
}

#[test]
fn the_first_worker_is_held(rt: HostRuntime) -> Result<(), Fail> {
    gated(&rt, rt.alloc(), 1)
}

#[test]
fn the_second_worker_is_held(rt: HostRuntime) -> Result<(), Fail> {
    gated(&rt, rt.alloc(), 2)
}
