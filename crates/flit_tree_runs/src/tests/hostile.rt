use super::opening::{Scripts, Shape, open};
use super::rig::Driven;
use flit_hashed::Hashed;
use flit_model::{Ahead, Call, Item};
use flit_packed::Packed;
use flit_place::{Adjacent, Placement};
use flit_tree::Tree;
use std::alloc::Global;
use std::process::Abort;
use std::test::Fail;

fn put(key: u32, value: u32) -> Item {
    Item::Call(Call::Insert(key, value))
}

fn take(key: u32) -> Item {
    Item::Call(Call::Remove(key))
}

fn get(key: u32) -> Item {
    Item::Call(Call::Get(key))
}

/// How many events a worker makes that runs first.
fn events_of<P: Placement + Drop>(
    rt: &impl Abort,
    alloc: Global,
    place: P,
    shape: Shape,
    scripts: Scripts<'_>,
    worker: u32,
) -> Result<u32, Fail> {
    open(rt, alloc, place, shape, scripts)?.turns(rt, worker, 1000)
}

/// Worker 2 runs until it is out; a crash after each of its events leaves the map of its history.
fn second_agrees<P: Placement + Drop>(
    rt: &impl Abort,
    alloc: Global,
    driven: &mut Driven<Tree<P>>,
) -> Result<(), Fail> {
    for _ in 0..1000 {
        if !driven.turn(rt, 2)? {
            return Ok(());
        }
        driven.agrees(rt, alloc)?;
    }
    Err(Fail::from("worker 2 goes on"))
}

/// Worker 1 stops anywhere; worker 2 runs until it is out, and a crash is tried after each of its events: so that it
/// stops anywhere too.
fn two_stop<P: Placement + Drop + Copy>(
    rt: &impl Abort,
    alloc: Global,
    place: P,
    shape: Shape,
    scripts: Scripts<'_>,
) -> Result<(), Fail> {
    let all = events_of(rt, alloc, place, shape, scripts, 1)?;
    assert!(rt; all < 1000);
    for stop in 0..all + 1 {
        let stops = [(1, u64::from(stop))];
        let stopping = Scripts {
            stops: &stops,
            ..scripts
        };
        let mut driven = open(rt, alloc, place, shape, stopping)?;
        assert_eq!(rt; driven.turns(rt, 1, 1000)?, stop);
        driven.agrees(rt, alloc)?;
        if 2 <= shape.workers {
            second_agrees(rt, alloc, &mut driven)?;
        }
        assert!(rt; !driven.turn(rt, 1)?);
    }
    Ok(())
}

/// Worker 1 makes some events, worker 2 some, then worker 1 all others, and worker 2: wherever they change over.
fn two_change_over<P: Placement + Drop + Copy>(
    rt: &impl Abort,
    alloc: Global,
    place: P,
    shape: Shape,
    scripts: Scripts<'_>,
) -> Result<(), Fail> {
    let first = events_of(rt, alloc, place, shape, scripts, 1)?;
    let second = events_of(rt, alloc, place, shape, scripts, 2)?;
    assert!(rt; first < 1000);
    assert!(rt; second < 1000);
    for before in 0..first + 1 {
        for behind in 0..second + 1 {
            let mut driven = open(rt, alloc, place, shape, scripts)?;
            driven.turns(rt, 1, before)?;
            driven.turns(rt, 2, behind)?;
            driven.turns(rt, 1, 1000)?;
            driven.agrees_at(rt, alloc, &Ahead::All)?;
            driven.turns(rt, 2, 1000)?;
            driven.agrees_at(rt, alloc, &Ahead::None)?;
        }
    }
    Ok(())
}

/// What the two workers are driven through: stops and crashes, or changes from one to the other.
#[derive(Clone, Copy)]
enum Drive {
    Stops,
    Changes,
}

fn driven_so<P: Placement + Drop + Copy>(
    rt: &impl Abort,
    alloc: Global,
    place: P,
    drive: Drive,
    shape: Shape,
    items: &[(u32, Item)],
) -> Result<(), Fail> {
    let scripts = Scripts { items, stops: &[] };
    match drive {
        Drive::Stops => two_stop(rt, alloc, place, shape, scripts),
        Drive::Changes => two_change_over(rt, alloc, place, shape, scripts),
    }
}

/// The calls of two workers, one of which takes out what the other has put in, or puts in beside it.
fn tables<P: Placement + Drop + Copy>(
    rt: &impl Abort,
    alloc: Global,
    place: P,
    drive: Drive,
) -> Result<(), Fail> {
    let siblings = [(1, put(10, 0)), (1, put(20, 0)), (2, take(10))];
    driven_so(rt, alloc, place, drive, Shape::tree(8, 2), &siblings)?;
    let valued = Shape {
        values: true,
        ..Shape::tree(4, 2)
    };
    let read = [(1, put(5, 70)), (2, take(5)), (2, get(5))];
    driven_so(rt, alloc, place, drive, valued, &read)
}

/// A worker alone that removes a leaf, and one that inserts where another has removed.
fn removals<P: Placement + Drop + Copy>(
    rt: &impl Abort,
    alloc: Global,
    place: P,
) -> Result<(), Fail> {
    let alone = [(1, put(10, 0)), (1, put(20, 0)), (1, take(10))];
    driven_so(rt, alloc, place, Drive::Stops, Shape::tree(8, 1), &alone)?;
    let again = [(1, put(10, 0)), (1, take(10)), (2, put(20, 0))];
    driven_so(rt, alloc, place, Drive::Stops, Shape::tree(12, 2), &again)
}

#[test]
fn stops_beside_each_word(rt: HostRuntime) -> Result<(), Fail> {
    tables(&rt, rt.alloc(), Adjacent, Drive::Stops)
}

#[test]
fn removals_beside_each_word(rt: HostRuntime) -> Result<(), Fail> {
    removals(&rt, rt.alloc(), Adjacent)
}

#[test]
fn changes_beside_each_word(rt: HostRuntime) -> Result<(), Fail> {
    tables(&rt, rt.alloc(), Adjacent, Drive::Changes)
}

#[test]
fn stops_with_one_count(rt: HostRuntime) -> Result<(), Fail> {
    tables(&rt, rt.alloc(), Hashed { slots: 1 }, Drive::Stops)
}

#[test]
fn removals_with_one_count(rt: HostRuntime) -> Result<(), Fail> {
    removals(&rt, rt.alloc(), Hashed { slots: 1 })
}

#[test]
fn changes_with_one_count(rt: HostRuntime) -> Result<(), Fail> {
    tables(&rt, rt.alloc(), Hashed { slots: 1 }, Drive::Changes)
}

#[test]
fn stops_in_bits(rt: HostRuntime) -> Result<(), Fail> {
    tables(&rt, rt.alloc(), Packed, Drive::Stops)
}

#[test]
fn removals_in_bits(rt: HostRuntime) -> Result<(), Fail> {
    removals(&rt, rt.alloc(), Packed)
}

#[test]
fn changes_in_bits(rt: HostRuntime) -> Result<(), Fail> {
    tables(&rt, rt.alloc(), Packed, Drive::Changes)
}
