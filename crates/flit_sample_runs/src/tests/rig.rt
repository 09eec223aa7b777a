ghost use Rattle.std.specs.Prelude.{◌≡◌, ◌⊎◌, ◌≤◌, ◌<◌, [], ◌∷◌, IfOk, true, length};
ghost use Rattle.std.specs.List.{AllByRecursion};
ghost use Rattle.flit_words.specs.declared.layouts.Layout.{Layout as A_layout};
ghost use Rattle.flit_words.specs.Layouts.{words_of};
ghost use Rattle.flit_model.specs.Recovery.{IsWhole, layout_of};
ghost use Rattle.flit_model.specs.Recovery.{IsRecovery};
ghost use Rattle.flit_one_key.specs.Steps.{IsSmall};
ghost use Rattle.flit_structure.specs.Meanings.{key_of, value_put};
ghost use Rattle.flit_sched.specs.Openings.{IsRightItem};
ghost use Rattle.flit_sample_runs.specs.Opened.{counts_of};

use super::agreement::{plays_to, told_once};
use crate::{open_sample, run_in_order};
use flit_image::Image;
use flit_model::{Ahead, Call, Entry, Item, Outcome, Placed, Tally, Work};
use flit_place::Placement;
use flit_plain::history;
use flit_recover::{Recovered, fresh, recover};
use flit_sample::Sample;
use flit_sched::{Sched, Turn};
use flit_words::{Kind, Layout, Link, NoMemory, Word};
use std::alloc::Global;
use std::process::Abort;
use std::test::Fail;

/// What the two workers do, and after how many events the first one stops.
#[derive(Clone, Copy)]
pub struct Scripts<'a> {
    pub first: &'a [Item],
    pub stop: Option<u64>,
    pub second: &'a [Item],
}

/// A run of two workers.
#[derive(Drop)]
pub struct Driven<P: Placement + Drop> {
    run: Sched<Sample<P>>,
    pub first: u32,
    pub second: u32,
    ghost counts: { counts_of run.run ≡ first ∷ second ∷ [] },
}

/// A layout of one row with values, for two workers.
pub fn layout_of<P: Placement>(rt: &impl Abort, place: &P, limit: u32) -> Layout
    ensures small { IsSmall result }
    ensures workers { result.workers ≡ 2 }
    ensures valued { result.values ≡ true }
    ensures slots { result.slots ≡ P.slots_for place.now (words_of result) }
{
    let slots = place.slots(4);
    assert!(rt; slots <= 4194320);
    assert!(rt; 1 <= limit);
    assert!(rt; limit <= 2147483647);
    Layout {
        kind: Kind::List,
        buckets: 1,
        rows: 1,
        slots,
        workers: 2,
        limit,
        values: true,
    }
}

fn key_and_value(call: Call) -> (u32, u32)
    ensures key { result.0 ≡ key_of call }
    ensures value { result.1 ≡ value_put call }
{
    match call {
        Call::Insert(key, value) => (key, value),
        Call::Remove(key) => (key, 0),
        Call::Contains(key) => (key, 0),
        Call::Get(key) => (key, 0),
    }
}

/// An item that the layout serves.
fn right_item(rt: &impl Abort, layout: &Layout, item: Item) -> Item
    requires { IsSmall layout.now }
    ensures { IsRightItem layout.now result }
{
    match item {
        Item::Call(call) => {
            let (key, value) = key_and_value(call);
            assert!(rt; key <= 4294967292);
            assert!(rt; layout.values || value == 0);
        }
        Item::Evict(word) => assert!(rt; word < layout.words()),
    }
    item
}

/// The work of one worker.
fn work_of(
    rt: &impl Abort,
    alloc: Global,
    layout: &Layout,
    items: &[Item],
    stop: Option<u64>,
) -> Result<Work, Fail>
    requires { IsSmall layout.now }
    ensures right { IfOk result (λ w. AllByRecursion (IsRightItem layout.now) w.items.items) }
    ensures few { IfOk result (λ w. length w.items.items ≤ 100) }
{
    let mut right = Vec::new(alloc);
    for item in items {
        right.push(right_item(rt, layout, *item))?;
    }
    assert!(rt; right.len() <= 100);
    Ok(Work { items: right, stop })
}

fn two_works(alloc: Global, first: Work, second: Work) -> Result<Vec<Work>, NoMemory>
    ensures { IfOk result (λ ws. ws.items ≡ first ∷ second ∷ []) }
{
    let mut works = Vec::new(alloc);
    works.push(first)?;
    works.push(second)?;
    Ok(works)
}

/// Opens a run at what recovery found.
pub fn reopen<P: Placement + Drop>(
    rt: &impl Abort,
    alloc: Global,
    place: P,
    layout: Layout,
    start: &Recovered,
    scripts: Scripts<'_>,
) -> Result<Driven<P>, Fail>
    requires small { IsSmall layout }
    requires workers { layout.workers ≡ 2 }
    requires slots { layout.slots ≡ P.slots_for place (words_of layout) }
    requires found { IsRecovery layout start.now.image.words.items start.now.keys.items
        start.now.values.items start.now.free.items }
{
    let first = work_of(rt, alloc, &layout, scripts.first, scripts.stop)?;
    let second = work_of(rt, alloc, &layout, scripts.second, None)?;
    let link_word = layout.row_word(1, 1) as usize;
    assert!(rt; link_word < start.image.words.len());
    assert!(rt; !Link::of(Word::unpack(start.image.words[link_word]).value).mark);
    let counts = (first.items.len() as u32, second.items.len() as u32);
    let works = two_works(alloc, first, second)?;
    let run = open_sample(alloc, layout, place, start, works)?;
    Ok(Driven {
        run,
        first: counts.0,
        second: counts.1,
    })
}

/// Opens a run whose words are fresh.
pub fn open<P: Placement + Drop>(
    rt: &impl Abort,
    alloc: Global,
    place: P,
    limit: u32,
    scripts: Scripts<'_>,
) -> Result<Driven<P>, Fail> {
    let layout = layout_of(rt, &place, limit);
    let start = fresh(alloc, &layout)?;
    reopen(rt, alloc, place, layout, &start, scripts)
}

fn is_small(rt: &impl Abort, image: &Image)
    ensures kind { image.now.kind ≡ Kind.List }
    ensures buckets { image.now.buckets ≡ 1 }
    ensures rows { image.now.rows ≡ 1 }
    ensures valued { image.now.values ≡ true }
    ensures whole { IsWhole image.now }
{
    assert!(rt; image.kind == Kind::List);
    assert!(rt; image.buckets == 1);
    assert!(rt; image.rows == 1);
    assert!(rt; image.values);
    assert!(rt; image.words.len() == image.layout().words() as usize);
}

/// What recovery finds in an image that has no damage.
fn recovered(alloc: Global, image: &Image) -> Result<Recovered, Fail>
    requires { IsWhole image.now }
    ensures { IfOk result (λ r. IsRecovery (layout_of image.now) r.image.words.items r.keys.items
        r.values.items r.free.items) }
{
    match recover(alloc, image) {
        Ok(found) => Ok(found),
        Err(_) => Err(Fail::from("damaged")),
    }
}

impl<P: Placement + Drop> Driven<P> {
    pub fn turn(&mut self, rt: &impl Abort, worker: u32) -> Turn {
        assert!(rt; worker == 1 || worker == 2);
        self.run.turn(worker)
    }

    /// Worker 1 does all that it does, and then worker 2.
    pub fn run_both(&mut self) {
        run_in_order(&mut self.run, 2);
    }

    fn has_item(&self, rt: &impl Abort, worker: u32, item: u32)
        ensures { ((worker ≡ 1) × (item < self.now.first))
            ⊎ ((worker ≡ 2) × (item < self.now.second)) }
    {
        if worker == 1 {
            assert!(rt; item < self.first);
        } else {
            assert!(rt; worker == 2);
            assert!(rt; item < self.second);
        }
    }

    pub fn outcome(&self, rt: &impl Abort, worker: u32, item: u32) -> Option<Outcome> {
        assert!(rt; worker == 1 || worker == 2);
        self.has_item(rt, worker, item);
        self.run.outcome(worker, item)
    }

    pub fn tally(&self, rt: &impl Abort, worker: u32) -> Tally {
        assert!(rt; worker == 1 || worker == 2);
        self.run.tally(worker)
    }

    pub fn updates(&self) -> &[Entry] {
        self.run.updates()
    }

    pub fn placed(&self) -> &[Placed] {
        self.run.placed()
    }

    /// What a crash leaves that takes these values ahead.
    pub fn crash(&self, rt: &impl Abort, alloc: Global, ahead: &Ahead) -> Result<Recovered, Fail>
        ensures { IfOk result (λ r. (l : A_layout) → IsSmall l → l.values ≡ true →
            IsRecovery l r.image.words.items r.keys.items r.values.items r.free.items) }
    {
        let image = self.run.image(alloc, ahead)?;
        is_small(rt, &image);
        let found = recovered(alloc, &image)?;
        Ok(found)
    }

    pub fn history(&self, alloc: Global, ahead: &Ahead) -> Result<Vec<Entry>, Fail> {
        Ok(self.run.history(alloc, ahead)?)
    }

    /// Each call of a worker that has its reply is in the history once, just where it is an update or a read.
    fn tells_each(&self, rt: &impl Abort, history: &[Entry], worker: u32, items: &[Item]) {
        let mut number = 0_u32;
        for (item, what) in items.iter().enumerate() {
            if let Item::Call(call) = what {
                number = number.saturating_add(1);
                assert!(rt; item < 100);
                let outcome = self.outcome(rt, worker, item as u32);
                told_once(rt, history, worker, number, *call, outcome);
            }
        }
    }

    /// A crash with these values ahead leaves the map of its history, which is one worker's.
    fn agrees_at(
        &self,
        rt: &impl Abort,
        alloc: Global,
        scripts: Scripts<'_>,
        ahead: &Ahead,
    ) -> Result<(), Fail> {
        let history = self.history(alloc, ahead)?;
        plays_to(rt, alloc, &history, &self.crash(rt, alloc, ahead)?)?;
        self.tells_each(rt, &history, 1, scripts.first);
        self.tells_each(rt, &history, 2, scripts.second);
        Ok(())
    }

    /// A crash at this moment, with each choice of values ahead.
    pub fn agrees(&self, rt: &impl Abort, alloc: Global, scripts: Scripts<'_>) -> Result<(), Fail> {
        self.agrees_at(rt, alloc, scripts, &Ahead::None)?;
        self.agrees_at(rt, alloc, scripts, &Ahead::All)?;
        let head = Ahead::Words(Vec::from_slice(alloc, &[0])?);
        self.agrees_at(rt, alloc, scripts, &head)?;
        let plain = history(alloc, self.updates(), self.placed())?;
        assert_eq!(rt;
            self.history(alloc, &Ahead::None)?.as_slice(),
            plain.as_slice()
        );
        Ok(())
    }

    /// Gives the workers their turns as the pattern says, over and over, with a crash tried after each event; answers
    /// how many events came.
    pub fn take_turns(
        &mut self,
        rt: &impl Abort,
        alloc: Global,
        scripts: Scripts<'_>,
        pattern: &[u32],
        rounds: u32,
    ) -> Result<u32, Fail> {
        let mut made = 0_u32;
        for _ in 0..rounds {
            for worker in pattern {
                if let Turn::Event { .. } = self.turn(rt, *worker) {
                    made = made.saturating_add(1);
                    self.agrees(rt, alloc, scripts)?;
                }
            }
        }
        Ok(made)
    }
}
