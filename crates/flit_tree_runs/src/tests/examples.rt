use super::opening::{Scripts, Shape, open};
use flit_model::{Call, Item};
use flit_place::{Adjacent, Placement};
use std::alloc::Global;
use std::process::Abort;
use std::test::Fail;

fn put(key: u32) -> Item {
    Item::Call(Call::Insert(key, 0))
}

fn take(key: u32) -> Item {
    Item::Call(Call::Remove(key))
}

/// The report of a run is this text: the workers run as these turns say, and then one after another until each is out.
fn reports<P: Placement + Drop>(
    rt: &impl Abort,
    alloc: Global,
    place: P,
    shape: Shape,
    scripts: Scripts<'_>,
    turns: &[(u32, u32)],
    text: &str,
) -> Result<(), Fail> {
    let mut driven = open(rt, alloc, place, shape, scripts)?;
    for (worker, most) in turns {
        driven.turns(rt, *worker, *most)?;
    }
    for before in 0..shape.workers {
        if before < 64 {
            driven.turns(rt, before + 1, 1000)?;
        }
    }
    let told = driven.text(rt, alloc, scripts.items)?;
    assert_eq!(rt; told.as_slice(), text.as_bytes());
    Ok(())
}

/// Worker 1 has flagged leaf 10; worker 2 flags leaf 20, and swings the flagged edge to 10 up with its flag; worker 1
/// then freezes the edge to 20 and loses its swing.
#[test]
fn both_leaves_of_one_parent(rt: HostRuntime) -> Result<(), Fail> {
    let text = "call 1 insert 10 yes
call 1 insert 20 yes
call 1 remove 10 yes
call 2 remove 20 yes
history 1 1 insert 10 yes
history 1 2 insert 20 yes
history 1 3 remove 10 yes
history 2 1 remove 20 yes
worker 1 loads 16 omitted 16 queued 0 persists 16 failed 1 helped 0 tries 3
worker 2 loads 8 omitted 8 queued 0 persists 3 failed 0 helped 0 tries 1
keys
free 10
";
    let scripts = Scripts {
        items: &[(1, put(10)), (1, put(20)), (1, take(10)), (2, take(20))],
        stops: &[],
    };
    let shape = Shape::tree(12, 2);
    let turns = [(1, 82), (2, 28)];
    reports(&rt, rt.alloc(), Adjacent, shape, scripts, &turns, text)
}

/// An edge whose version has reached the limit takes no exchange more.
#[test]
fn a_word_is_worn(rt: HostRuntime) -> Result<(), Fail> {
    let text = "call 1 insert 10 yes
call 1 insert 20 worn 19 1
history 1 1 insert 10 yes
worker 1 loads 8 omitted 8 queued 0 persists 13 failed 0 helped 0 tries 2
keys 10
free 2
";
    let scripts = Scripts {
        items: &[(1, put(10)), (1, put(20))],
        stops: &[],
    };
    let shape = Shape {
        limit: 1,
        ..Shape::tree(4, 1)
    };
    reports(&rt, rt.alloc(), Adjacent, shape, scripts, &[], text)
}

/// The greatest key is below those of the tree's own leaves.
#[test]
fn the_largest_key(rt: HostRuntime) -> Result<(), Fail> {
    let text = "call 1 insert 4294967292 yes
history 1 1 insert 4294967292 yes
worker 1 loads 3 omitted 3 queued 0 persists 7 failed 0 helped 0 tries 1
keys 4294967292
free 2
";
    let scripts = Scripts {
        items: &[(1, put(4294967292))],
        stops: &[],
    };
    let shape = Shape::tree(4, 1);
    reports(&rt, rt.alloc(), Adjacent, shape, scripts, &[], text)
}
