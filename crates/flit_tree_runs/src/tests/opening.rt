ghost use Rattle.std.specs.Prelude.{◌≡◌, ◌≢◌, ◌≤◌, IfOk, length, map};
ghost use Rattle.std.specs.List.{AllByRecursion};
ghost use Rattle.flit_words.specs.Layouts.{Accepted, words_of, least_buckets, most_buckets};
ghost use Rattle.flit_structure.specs.Meanings.{key_of, value_put};
ghost use Rattle.flit_sched.specs.Openings.{AreRight, IsRightItem};
ghost use Rattle.flit_tree_heap.specs.Views.{IsTreeLayout};

use super::rig::Driven;
use crate::open_tree;
use flit_model::{Call, Item, Work};
use flit_place::Placement;
use flit_recover::fresh;
use flit_tree::Tree;
use flit_words::{Kind, Layout};
use std::alloc::Global;
use std::process::Abort;
use std::test::Fail;

/// A tree, without its slots.
#[derive(Clone, Copy)]
pub struct Shape {
    pub rows: u32,
    pub workers: u32,
    pub limit: u32,
    pub values: bool,
}

impl Shape {
    /// A tree of so many rows for so many workers.
    pub fn tree(rows: u32, workers: u32) -> Shape {
        Shape {
            rows,
            workers,
            limit: 2147483647,
            values: false,
        }
    }
}

/// What the workers do, in the order in which it is told, and where some of them stop.
#[derive(Clone, Copy)]
pub struct Scripts<'a> {
    pub items: &'a [(u32, Item)],
    pub stops: &'a [(u32, u64)],
}

/// A tree has no buckets.
pub fn buckets_fit(rt: &impl Abort, kind: Kind, buckets: u32)
    ensures least { least_buckets kind ≤ buckets }
    ensures most { buckets ≤ most_buckets kind }
    ensures tree { kind ≡ Kind.Tree }
{
    match kind {
        Kind::Tree => assert!(rt; buckets == 0),
        Kind::List => panic!(rt; "a list"),
        Kind::Hash => panic!(rt; "a hash table"),
    }
}

/// The layout with the slots of its placement.
fn layout_of<P: Placement>(rt: &impl Abort, place: &P, shape: Shape) -> Layout
    ensures tree { IsTreeLayout result }
    ensures slots { result.slots ≡ P.slots_for place.now (words_of result) }
{
    assert!(rt; 1 <= shape.rows);
    assert!(rt; shape.rows <= 1048575);
    assert!(rt; 1 <= shape.workers);
    assert!(rt; shape.workers <= 64);
    assert!(rt; 1 <= shape.limit);
    assert!(rt; shape.limit <= 2147483647);
    let bare = Layout {
        kind: Kind::Tree,
        buckets: 0,
        rows: shape.rows,
        slots: 0,
        workers: shape.workers,
        limit: shape.limit,
        values: shape.values,
    };
    let slots = place.slots(bare.words());
    assert!(rt; slots <= 4194320);
    Layout { slots, ..bare }
}

fn key_and_value(call: Call) -> (u32, u32)
    ensures key { result.0 ≡ key_of call }
    ensures value { result.1 ≡ value_put call }
{
    match call {
        Call::Insert(key, value) => (key, value),
        Call::Remove(key) => (key, 0),
        Call::Contains(key) => (key, 0),
        Call::Get(key) => (key, 0),
    }
}

/// An item that the layout serves.
fn right_item(rt: &impl Abort, layout: &Layout, item: Item) -> Item
    requires { Accepted layout.now }
    ensures { IsRightItem layout.now result }
{
    match item {
        Item::Call(call) => {
            let (key, value) = key_and_value(call);
            assert!(rt; key <= 4294967292);
            assert!(rt; layout.values || value == 0);
        }
        Item::Evict(word) => assert!(rt; word < layout.words()),
    }
    item
}

/// The work of one worker.
fn work_of(
    rt: &impl Abort,
    alloc: Global,
    layout: &Layout,
    scripts: Scripts<'_>,
    worker: u32,
) -> Result<Work, Fail>
    requires { Accepted layout.now }
    ensures right { IfOk result (λ w. AllByRecursion (IsRightItem layout.now) w.items.items) }
    ensures few { IfOk result (λ w. length w.items.items ≤ 100) }
{
    let mut items = Vec::new(alloc);
    for item in scripts.items {
        if item.0 == worker {
            items.push(right_item(rt, layout, item.1))?;
        }
    }
    assert!(rt; items.len() <= 100);
    let mut stop = None;
    for stop_of in scripts.stops {
        if stop_of.0 == worker {
            stop = Some(stop_of.1);
        }
    }
    Ok(Work { items, stop })
}

/// The works of all workers, and how many items each has.
fn works_of(
    rt: &impl Abort,
    alloc: Global,
    layout: &Layout,
    scripts: Scripts<'_>,
) -> Result<(Vec<Work>, Vec<u32>), Fail>
    requires { Accepted layout.now }
    ensures right { IfOk result (λ r. AreRight layout.now r.0.items) }
    ensures counts { IfOk result (λ r. map (λ w. length w.items.items) r.0.items ≡ r.1.items) }
{
    let mut works = Vec::new(alloc);
    let mut counts = Vec::new(alloc);
    for before in 0..layout.workers {
        let work = work_of(rt, alloc, layout, scripts, before + 1)?;
        counts.push(work.items.len() as u32)?;
        works.push(work)?;
    }
    Ok((works, counts))
}

/// Opens a run whose words are fresh.
pub fn open<P: Placement + Drop>(
    rt: &impl Abort,
    alloc: Global,
    place: P,
    shape: Shape,
    scripts: Scripts<'_>,
) -> Result<Driven<Tree<P>>, Fail> {
    let layout = layout_of(rt, &place, shape);
    let start = fresh(alloc, &layout)?;
    let (works, counts) = works_of(rt, alloc, &layout, scripts)?;
    let run = open_tree(alloc, layout, place, &start, works)?;
    Ok(Driven::of(run, counts))
}
