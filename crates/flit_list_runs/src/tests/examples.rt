use super::opening::{Scripts, Shape, open};
use super::rig::Driven;
use flit_hashed::Hashed;
use flit_list::List;
use flit_model::{Ahead, Call, Image, Item};
use flit_packed::Packed;
use flit_place::{Adjacent, Placement};
use flit_words::Word;
use std::alloc::Global;
use std::process::Abort;
use std::test::Fail;

const FIVE: Item = Item::Call(Call::Insert(5, 0));

const TAKE_FIVE: Item = Item::Call(Call::Remove(5));

const HAS_FIVE: Item = Item::Call(Call::Contains(5));

fn put(key: u32) -> Item {
    Item::Call(Call::Insert(key, 0))
}

/// Runs the workers as these turns say, and then one after another until each is out.
fn ran<P: Placement + Drop>(
    rt: &impl Abort,
    alloc: Global,
    place: P,
    shape: Shape,
    scripts: Scripts<'_>,
    turns: &[(u32, u32)],
) -> Result<Driven<List<P>>, Fail> {
    let mut driven = open(rt, alloc, place, shape, scripts)?;
    for (worker, most) in turns {
        driven.turns(rt, *worker, *most)?;
    }
    for before in 0..shape.workers {
        if before < 64 {
            driven.turns(rt, before + 1, 1000)?;
        }
    }
    Ok(driven)
}

/// The report of such a run is this text.
fn reports<P: Placement + Drop>(
    rt: &impl Abort,
    alloc: Global,
    place: P,
    shape: Shape,
    scripts: Scripts<'_>,
    turns: &[(u32, u32)],
    text: &str,
) -> Result<(), Fail> {
    let driven = ran(rt, alloc, place, shape, scripts, turns)?;
    let told = driven.text(rt, alloc, scripts.items, text.starts_with("event"))?;
    assert_eq!(rt; told.as_slice(), text.as_bytes());
    Ok(())
}

/// A word of an image, as its version and its value.
fn word_of(rt: &impl Abort, image: &Image, word: usize) -> (u32, u32) {
    assert!(rt; word < image.words.len());
    let word = Word::unpack(image.words[word]);
    (word.version, word.value)
}

const ONE_INSERT: &str = "event 1 load 0 0:0
event 1 readtag 0 0
event 1 draw 0
event 1 load 1 0:0
event 1 load 2 0:0
event 1 store 1 1:5
event 1 store 2 1:0
event 1 persist 1 1:5 0:0
event 1 persist 2 1:0 0:0
event 1 raise 0 0
event 1 exchange 0 0:0 1:4 0:0
event 1 persist 0 1:4 0:0
event 1 lower 0 1
call 1 insert 5 yes
history 1 1 insert 5 yes
worker 1 loads 1 omitted 1 queued 0 persists 3 failed 0 helped 0 tries 1
keys 5
free 3
";

#[test]
fn one_insert(rt: HostRuntime) -> Result<(), Fail> {
    let scripts = Scripts {
        items: &[(1, FIVE)],
        stops: &[],
    };
    let shape = Shape::list(4, 1);
    reports(&rt, rt.alloc(), Adjacent, shape, scripts, &[], ONE_INSERT)
}

/// Worker 2 sees a count that is of another word's exchange.
#[test]
fn a_false_tag(rt: HostRuntime) -> Result<(), Fail> {
    let text = "call 1 insert 5 yes
call 1 insert 9 stopped
call 2 contains 5 yes
history 1 1 insert 5 yes
history 2 1 contains 5 yes
worker 1 loads 3 omitted 3 queued 0 persists 5 failed 0 helped 0 tries 2
worker 2 loads 2 omitted 0 queued 2 persists 2 failed 0 helped 0 tries 1
keys 5
free 7
";
    let scripts = Scripts {
        items: &[(1, FIVE), (1, put(9)), (2, HAS_FIVE)],
        stops: &[(1, 26)],
    };
    let place = Hashed { slots: 1 };
    let shape = Shape::list(8, 2);
    reports(&rt, rt.alloc(), place, shape, scripts, &[], text)
}

/// Worker 2 has loaded the head with its tag, which is withdrawn before its exchange.
#[test]
fn a_tag_is_withdrawn(rt: HostRuntime) -> Result<(), Fail> {
    let text = "call 1 insert 5 yes
call 2 insert 3 yes
history 1 1 insert 5 yes
history 2 1 insert 3 yes
worker 1 loads 1 omitted 1 queued 0 persists 3 failed 0 helped 0 tries 1
worker 2 loads 1 omitted 0 queued 1 persists 4 failed 0 helped 0 tries 1
keys 3 5
free 2
";
    let scripts = Scripts {
        items: &[(1, FIVE), (2, put(3))],
        stops: &[],
    };
    let turns = [(1, 9), (2, 11), (1, 2)];
    let shape = Shape::list(4, 2);
    reports(&rt, rt.alloc(), Packed, shape, scripts, &turns, text)
}

#[test]
fn a_lost_exchange(rt: HostRuntime) -> Result<(), Fail> {
    let text = "call 1 insert 5 yes
call 2 insert 3 yes
history 2 1 insert 3 yes
history 1 1 insert 5 yes
worker 1 loads 3 omitted 3 queued 0 persists 5 failed 1 helped 0 tries 2
worker 2 loads 1 omitted 0 queued 1 persists 4 failed 0 helped 0 tries 1
keys 3 5
free 2
";
    let scripts = Scripts {
        items: &[(1, FIVE), (2, put(3))],
        stops: &[],
    };
    let turns = [(1, 10), (2, 14)];
    let shape = Shape::list(4, 2);
    reports(&rt, rt.alloc(), Adjacent, shape, scripts, &turns, text)
}

/// Worker 1 stops behind its mark, and worker 2 unlinks the row.
#[test]
fn repeated_and_helped(rt: HostRuntime) -> Result<(), Fail> {
    let text = "call 1 insert 5 yes
call 1 insert 5 no
call 1 remove 5 stopped
call 2 contains 5 no
history 1 1 insert 5 yes
history 1 2 insert 5 no
history 1 3 remove 5 yes
history 2 1 contains 5 no
worker 1 loads 5 omitted 5 queued 0 persists 4 failed 0 helped 0 tries 3
worker 2 loads 2 omitted 2 queued 0 persists 1 failed 0 helped 1 tries 1
keys
free 4
";
    let scripts = Scripts {
        items: &[(1, FIVE), (1, FIVE), (1, TAKE_FIVE), (2, HAS_FIVE)],
        stops: &[(1, 27)],
    };
    let shape = Shape::list(4, 2);
    reports(&rt, rt.alloc(), Adjacent, shape, scripts, &[], text)
}

#[test]
fn settled_by_another(rt: HostRuntime) -> Result<(), Fail> {
    let text = "call 1 insert 5 stopped
call 2 contains 5 yes
history 1 1 insert 5 yes
history 2 1 contains 5 yes
worker 1 loads 1 omitted 1 queued 0 persists 2 failed 0 helped 0 tries 1
worker 2 loads 2 omitted 1 queued 1 persists 1 failed 0 helped 0 tries 1
keys 5
free 3
";
    let scripts = Scripts {
        items: &[(1, FIVE), (2, HAS_FIVE)],
        stops: &[(1, 11)],
    };
    let shape = Shape::list(4, 2);
    reports(&rt, rt.alloc(), Adjacent, shape, scripts, &[], text)
}

/// Worker 1 exchanges first, but only worker 2's update becomes persistent.
#[test]
fn exchanges_are_no_history(rt: HostRuntime) -> Result<(), Fail> {
    let text = "call 1 insert 3 yes
call 1 insert 6 yes
call 1 insert 9 stopped
call 2 insert 1 yes
history 1 1 insert 3 yes
history 1 2 insert 6 yes
history 2 1 insert 1 yes
worker 1 loads 5 omitted 5 queued 0 persists 8 failed 0 helped 0 tries 3
worker 2 loads 1 omitted 1 queued 0 persists 3 failed 0 helped 0 tries 1
keys 1 3 6
free 5
";
    let scripts = Scripts {
        items: &[(1, put(3)), (1, put(6)), (1, put(9)), (2, put(1))],
        stops: &[(1, 45)],
    };
    let shape = Shape::list(8, 2);
    reports(&rt, rt.alloc(), Adjacent, shape, scripts, &[], text)
}

#[test]
fn a_removed_row_is_not_given_again(rt: HostRuntime) -> Result<(), Fail> {
    let text = "call 1 insert 5 yes
call 1 remove 5 yes
call 1 insert 5 yes
call 1 contains 5 yes
history 1 1 insert 5 yes
history 1 2 remove 5 yes
history 1 3 insert 5 yes
history 1 4 contains 5 yes
worker 1 loads 6 omitted 6 queued 0 persists 8 failed 0 helped 0 tries 4
keys 5
free 3
";
    let alloc = rt.alloc();
    let scripts = Scripts {
        items: &[(1, FIVE), (1, TAKE_FIVE), (1, FIVE), (1, HAS_FIVE)],
        stops: &[],
    };
    let shape = Shape::list(4, 1);
    reports(&rt, alloc, Adjacent, shape, scripts, &[], text)?;
    let driven = ran(&rt, alloc, Adjacent, shape, scripts, &[])?;
    let image = driven.image(alloc, &Ahead::None)?;
    let words = [
        (3, 8),
        (1, 5),
        (2, 1),
        (1, 5),
        (1, 0),
        (0, 0),
        (0, 0),
        (0, 0),
        (0, 0),
    ];
    assert_eq!(rt; image.words.len(), words.len());
    for (at, word) in words.iter().enumerate() {
        assert_eq!(rt; word_of(&rt, &image, at), *word);
    }
    Ok(())
}

#[test]
fn no_row_is_left(rt: HostRuntime) -> Result<(), Fail> {
    let text = "call 1 insert 1 yes
call 1 insert 2 full 1
history 1 1 insert 1 yes
worker 1 loads 3 omitted 3 queued 0 persists 3 failed 0 helped 0 tries 2
keys 1
free 0
";
    let scripts = Scripts {
        items: &[(1, put(1)), (1, put(2))],
        stops: &[],
    };
    let shape = Shape::list(1, 1);
    reports(&rt, rt.alloc(), Adjacent, shape, scripts, &[], text)
}

#[test]
fn a_word_is_worn(rt: HostRuntime) -> Result<(), Fail> {
    let text = "call 1 insert 1 yes
call 1 insert 0 worn 0 1
history 1 1 insert 1 yes
worker 1 loads 2 omitted 2 queued 0 persists 5 failed 0 helped 0 tries 2
keys 1
free 3
";
    let scripts = Scripts {
        items: &[(1, put(1)), (1, put(0))],
        stops: &[],
    };
    let shape = Shape {
        limit: 1,
        ..Shape::list(4, 1)
    };
    reports(&rt, rt.alloc(), Adjacent, shape, scripts, &[], text)
}

/// The mark of a layout with values has the name of its remover.
#[test]
fn a_value_and_a_named_mark(rt: HostRuntime) -> Result<(), Fail> {
    let alloc = rt.alloc();
    let scripts = Scripts {
        items: &[(1, Item::Call(Call::Insert(5, 70))), (1, TAKE_FIVE)],
        stops: &[],
    };
    let shape = Shape {
        values: true,
        ..Shape::list(4, 1)
    };
    let mut driven = open(&rt, alloc, Adjacent, shape, scripts)?;
    driven.turns(&rt, 1, 16)?;
    let image = driven.image(alloc, &Ahead::None)?;
    assert_eq!(rt; word_of(&rt, &image, 9), (1, 70));
    assert!(rt; driven.outcome(&rt, 1, 0).is_some());
    let text = driven.text(&rt, alloc, scripts.items, false)?;
    assert_eq!(rt; text.as_slice(), AFTER_INSERT.as_bytes());
    driven.turns(&rt, 1, 100)?;
    let image = driven.image(alloc, &Ahead::None)?;
    assert_eq!(rt; word_of(&rt, &image, 2), (2, 16777217));
    Ok(())
}

const AFTER_INSERT: &str = "call 1 insert 5 70 yes
call 1 remove 5 stopped
history 1 1 insert 5 70 yes
worker 1 loads 1 omitted 1 queued 0 persists 4 failed 0 helped 0 tries 1
keys 5
values 70
free 3
";

/// A key of a hash table is in the chain of its bucket.
#[test]
fn a_bucket(rt: HostRuntime) -> Result<(), Fail> {
    let alloc = rt.alloc();
    let scripts = Scripts {
        items: &[(1, put(1))],
        stops: &[],
    };
    let shape = Shape::hash(256, 4, 1);
    let driven = ran(&rt, alloc, Adjacent, shape, scripts, &[])?;
    let image = driven.image(alloc, &Ahead::None)?;
    for (word, is) in [(177, (1, 4)), (256, (1, 1)), (257, (1, 0)), (0, (0, 0))] {
        assert_eq!(rt; word_of(&rt, &image, word), is);
    }
    Ok(())
}
