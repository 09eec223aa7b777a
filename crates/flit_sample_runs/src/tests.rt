mod agreement;
mod rig;

use self::rig::{Driven, Scripts, layout_of, open, reopen};
use flit_hashed::Hashed;
use flit_model::{Ahead, Call, Entry, Event, Item, Outcome, Placed, Reply, Tally};
use flit_packed::Packed;
use flit_place::{Adjacent, Placement};
use flit_sched::Turn;
use std::alloc::Global;
use std::process::Abort;
use std::test::Fail;

const PUT: Item = Item::Call(Call::Insert(7, 9));

const TAKE: Item = Item::Call(Call::Remove(7));

const REST: [Item; 6] = [
    Item::Call(Call::Insert(7, 8)),
    Item::Call(Call::Contains(7)),
    Item::Call(Call::Get(7)),
    TAKE,
    Item::Call(Call::Insert(7, 1)),
    Item::Evict(0),
];

/// Worker 1 puts the key in and takes it out, but stops; then worker 2 does all its items.
fn one_after_the_other<P: Placement + Drop + Copy>(
    rt: &impl Abort,
    alloc: Global,
    place: P,
) -> Result<(), Fail> {
    for stop in 0..61 {
        let scripts = Scripts {
            first: &[PUT, TAKE],
            stop: Some(stop),
            second: &REST,
        };
        let mut driven = open(rt, alloc, place, 100, scripts)?;
        let made = driven.take_turns(rt, alloc, scripts, &[1], 80)?;
        assert!(rt; u64::from(made) <= stop);
        driven.take_turns(rt, alloc, scripts, &[2], 200)?;
        assert_eq!(rt; driven.turn(rt, 1), Turn::Idle);
        assert_eq!(rt; driven.turn(rt, 2), Turn::Idle);
        for item in 0..5 {
            assert!(rt; driven.outcome(rt, 2, item) != Some(Outcome::Stopped));
        }
        assert_eq!(rt; driven.outcome(rt, 2, 5), None);
    }
    Ok(())
}

#[test]
fn a_worker_stops_anywhere(rt: HostRuntime) -> Result<(), Fail> {
    one_after_the_other(&rt, rt.alloc(), Adjacent)?;
    one_after_the_other(&rt, rt.alloc(), Hashed { slots: 3 })?;
    one_after_the_other(&rt, rt.alloc(), Packed)
}

/// The workers take turns as the pattern says, from each offset on; answers how many exchanges were lost, and how many
/// write-backs were queued since a tag showed.
fn in_turns<P: Placement + Drop + Copy>(
    rt: &impl Abort,
    alloc: Global,
    place: P,
    pattern: &[u32],
) -> Result<(u64, u64), Fail> {
    let scripts = Scripts {
        first: &[PUT, TAKE],
        stop: None,
        second: &REST,
    };
    let mut lost = 0_u64;
    let mut queued = 0_u64;
    for offset in 0..40 {
        let mut driven = open(rt, alloc, place, 100, scripts)?;
        driven.take_turns(rt, alloc, scripts, &[1], offset)?;
        driven.take_turns(rt, alloc, scripts, pattern, 150)?;
        assert_eq!(rt; driven.turn(rt, 1), Turn::Idle);
        assert_eq!(rt; driven.turn(rt, 2), Turn::Idle);
        for worker in 1..3 {
            let tally = driven.tally(rt, worker);
            lost = lost.saturating_add(tally.failed);
            queued = queued.saturating_add(tally.queued);
        }
    }
    Ok((lost, queued))
}

fn in_each_pattern<P: Placement + Drop + Copy>(
    rt: &impl Abort,
    alloc: Global,
    place: P,
) -> Result<(u64, u64), Fail> {
    let one = in_turns(rt, alloc, place, &[1, 2])?;
    let two = in_turns(rt, alloc, place, &[1, 1, 2])?;
    let three = in_turns(rt, alloc, place, &[2, 2, 2, 1])?;
    let lost = one.0.saturating_add(two.0).saturating_add(three.0);
    let queued = one.1.saturating_add(two.1).saturating_add(three.1);
    Ok((lost, queued))
}

#[test]
fn workers_take_turns(rt: HostRuntime) -> Result<(), Fail> {
    let adjacent = in_each_pattern(&rt, rt.alloc(), Adjacent)?;
    let hashed = in_each_pattern(&rt, rt.alloc(), Hashed { slots: 3 })?;
    let packed = in_each_pattern(&rt, rt.alloc(), Packed)?;
    for (lost, queued) in [adjacent, hashed, packed] {
        assert!(rt; lost > 0 && queued > 0);
    }
    Ok(())
}

fn is_replied<P: Placement + Drop>(
    rt: &impl Abort,
    driven: &Driven<P>,
    worker: u32,
    item: u32,
    reply: Reply,
) {
    assert_eq!(rt;
        driven.outcome(rt, worker, item),
        Some(Outcome::Replied(reply))
    );
}

#[test]
fn one_worker_does_each_call(rt: HostRuntime) -> Result<(), Fail> {
    let alloc = rt.alloc();
    let has = Call::Contains(7);
    let scripts = Scripts {
        first: &[
            Item::Call(has),
            PUT,
            Item::Call(Call::Get(7)),
            Item::Call(has),
            TAKE,
            Item::Evict(0),
        ],
        stop: None,
        second: &[],
    };
    let mut driven = open(&rt, alloc, Adjacent, 100, scripts)?;
    let event = Event::Load { word: 0 };
    assert_eq!(rt; driven.turn(&rt, 1), Turn::Event { event, answer: 0 });
    driven.take_turns(&rt, alloc, scripts, &[1], 60)?;
    assert_eq!(rt; driven.turn(&rt, 1), Turn::Idle);
    assert_eq!(rt; driven.turn(&rt, 2), Turn::Idle);
    let replies = [
        Reply::No,
        Reply::Yes,
        Reply::Found { value: 9 },
        Reply::Yes,
        Reply::Yes,
    ];
    for (item, reply) in replies.iter().enumerate() {
        is_replied(&rt, &driven, 1, item as u32, *reply);
    }
    assert_eq!(rt; driven.outcome(&rt, 1, 5), None);
    let put = entry_of(2, Call::Insert(7, 9), Reply::Yes);
    let take = entry_of(5, Call::Remove(7), Reply::Yes);
    assert_eq!(rt; driven.updates(), [put, take].as_slice());
    let reads = [
        Placed {
            position: 0,
            entry: entry_of(1, has, Reply::No),
        },
        Placed {
            position: 1,
            entry: entry_of(3, Call::Get(7), Reply::Found { value: 9 }),
        },
        Placed {
            position: 1,
            entry: entry_of(4, has, Reply::Yes),
        },
    ];
    assert_eq!(rt; driven.placed(), reads.as_slice());
    let counted = Tally {
        loads: 5,
        omitted: 5,
        persists: 6,
        tries: 5,
        ..Tally::default()
    };
    assert_eq!(rt; driven.tally(&rt, 1), counted);
    Ok(())
}

fn entry_of(number: u32, call: Call, reply: Reply) -> Entry {
    Entry {
        worker: 1,
        number,
        call,
        reply,
    }
}

/// Where a contains stands, and its reply, that makes its first event after so many of worker 1's, and the others after
/// all of them.
fn stands_at(
    rt: &impl Abort,
    alloc: Global,
    before: u32,
    first: u32,
) -> Result<Vec<(u32, Reply)>, Fail> {
    let scripts = Scripts {
        first: &[PUT, TAKE],
        stop: None,
        second: &[Item::Call(Call::Contains(7))],
    };
    let mut driven = open(rt, alloc, Adjacent, 100, scripts)?;
    driven.take_turns(rt, alloc, scripts, &[1], before)?;
    driven.take_turns(rt, alloc, scripts, &[2], first)?;
    driven.take_turns(rt, alloc, scripts, &[1, 2], 60)?;
    let mut places = Vec::new(alloc);
    for read in driven.placed() {
        places.push((read.position, read.entry.reply))?;
    }
    Ok(places)
}

/// A contains stands behind no fewer updates than were settled when it began: a No that was right only before the insert
/// doesn't come once that is settled.
#[test]
fn a_stale_reply_does_not_come(rt: HostRuntime) -> Result<(), Fail> {
    let alloc = rt.alloc();
    for (before, first, position, reply) in [
        (0, 1, 0, Reply::No),
        (16, 3, 1, Reply::Yes),
        (16, 1, 1, Reply::Yes),
        (60, 3, 2, Reply::No),
    ] {
        let places = stands_at(&rt, alloc, before, first)?;
        assert_eq!(rt;
            places.as_slice(),
            [(position, reply)].as_slice(),
            "{before} {first}"
        );
    }
    Ok(())
}

#[test]
fn no_row_is_left(rt: HostRuntime) -> Result<(), Fail> {
    let alloc = rt.alloc();
    let scripts = Scripts {
        first: &[PUT],
        stop: None,
        second: &[Item::Call(Call::Insert(6, 1)), TAKE],
    };
    let mut driven = open(&rt, alloc, Packed, 100, scripts)?;
    driven.take_turns(&rt, alloc, scripts, &[1], 60)?;
    let found = driven.crash(&rt, alloc, &Ahead::None)?;
    assert_eq!(rt; found.free.len(), 0);
    driven.take_turns(&rt, alloc, scripts, &[2], 60)?;
    is_replied(&rt, &driven, 2, 0, Reply::Full { ticket: 1 });
    is_replied(&rt, &driven, 2, 1, Reply::Yes);
    let layout = layout_of(&rt, &Packed, 100);
    let mut again = reopen(
        &rt,
        alloc,
        Packed,
        layout,
        &found,
        Scripts {
            first: &[],
            ..scripts
        },
    )?;
    again.run_both();
    is_replied(&rt, &again, 2, 0, Reply::Full { ticket: 0 });
    is_replied(&rt, &again, 2, 1, Reply::Yes);
    Ok(())
}

#[test]
fn a_version_reaches_the_limit(rt: HostRuntime) -> Result<(), Fail> {
    let alloc = rt.alloc();
    let scripts = Scripts {
        first: &[PUT, TAKE],
        stop: None,
        second: &[],
    };
    let mut driven = open(&rt, alloc, Adjacent, 1, scripts)?;
    driven.take_turns(&rt, alloc, scripts, &[1], 60)?;
    is_replied(&rt, &driven, 1, 0, Reply::Yes);
    is_replied(
        &rt,
        &driven,
        1,
        1,
        Reply::Worn {
            word: 0,
            version: 1,
        },
    );
    let mut twice = open(&rt, alloc, Adjacent, 2, scripts)?;
    twice.take_turns(&rt, alloc, scripts, &[1], 60)?;
    is_replied(&rt, &twice, 1, 1, Reply::Yes);
    let found = twice.crash(&rt, alloc, &Ahead::All)?;
    for (limit, word) in [(1, 1), (2, 0)] {
        let layout = layout_of(&rt, &Adjacent, limit);
        let mut again = reopen(&rt, alloc, Adjacent, layout, &found, scripts)?;
        again.take_turns(&rt, alloc, scripts, &[1], 60)?;
        is_replied(
            &rt,
            &again,
            1,
            0,
            Reply::Worn {
                word,
                version: limit,
            },
        );
    }
    Ok(())
}
