ghost use Rattle.std.specs.Prelude.{◌<◌, ◌^◌};

mod places;
mod rig;
mod runs;

use self::places::{Bits, OneSlot};
use self::rig::Rig;
use self::runs::*;
use super::*;
use flit_model::{Event, Tally};
use flit_place::{Adjacent, Placement};
use flit_words::Word;
use std::alloc::Global;
use std::process::Abort;
use std::test::Fail;

const LIMIT: u32 = 2147483647;

fn raw(version: u32, value: u32, tagged: bool) -> u64
    requires { version < 2 ^ 31 }
{
    Word {
        version,
        value,
        tagged,
    }
    .pack()
}

fn load(word: u32) -> Event {
    Event::Load { word }
}

fn persist(word: u32, kept: u64) -> Event {
    Event::Persist { word, kept }
}

fn store(word: u32, new: u64) -> Event {
    Event::Store { word, new }
}

fn exchange(word: u32, old: u64, new: u64) -> Event {
    Event::Exchange { word, old, new }
}

#[test]
fn one_insert(rt: HostRuntime) -> Result<(), Fail> {
    let mut rig = Rig::of_rows(&rt, rt.alloc(), 4, 9)?;
    let place = Adjacent;
    let mut hand = Hand::first(1);
    let head = v_load(&rt, &mut rig, &hand, 0)?;
    confirm(&rt, &mut rig, &place, &mut hand, 0, head)?;
    let stored = private_store(&rt, &mut rig, &mut hand, 1, &[5, 0], LIMIT)?;
    assert_eq!(rt; stored, Stored::Stored);
    let mut link = PExchange::start(0, head, 4, LIMIT);
    p_exchange(&rt, &mut rig, &place, &mut hand, &mut link, 20)?;
    assert_eq!(rt; link.ended(), Some(Exchanged::Won));
    let tally = complete(&rt, &mut rig, &mut hand)?;
    let key = raw(1, 5, false);
    let next = raw(1, 0, false);
    let linked = raw(1, 4, false);
    assert_eq!(rt;
        rig.events.as_slice(),
        [
            load(0),
            Event::ReadTag { slot: 0 },
            load(1),
            load(2),
            store(1, key),
            store(2, next),
            persist(1, key),
            persist(2, next),
            Event::Raise { slot: 0 },
            exchange(0, 0, linked),
            persist(0, linked),
            Event::Lower { slot: 0 },
        ]
        .as_slice()
    );
    let counted = Tally {
        loads: 1,
        omitted: 1,
        persists: 3,
        ..Tally::default()
    };
    assert_eq!(rt; tally, counted);
    Ok(())
}

/// The slot that two words share is raised for one of them, and a load of the other queues its word.
#[test]
fn a_false_tag(rt: HostRuntime) -> Result<(), Fail> {
    let mut rig = Rig::of_rows(&rt, rt.alloc(), 8, 1)?;
    let place = OneSlot;
    let mut writer = Hand::first(1);
    let mut link = PExchange::start(0, 0, 4, LIMIT);
    p_exchange(&rt, &mut rig, &place, &mut writer, &mut link, 1)?;
    let mut reader = Hand::first(2);
    assert_eq!(rt; p_load(&rt, &mut rig, &place, &mut reader, 2)?, 0);
    let tally = complete(&rt, &mut rig, &mut reader)?;
    assert_eq!(rt;
        rig.events.as_slice(),
        [
            Event::Raise { slot: 0 },
            load(2),
            Event::ReadTag { slot: 0 },
            persist(2, 0)
        ]
        .as_slice()
    );
    let counted = Tally {
        loads: 1,
        queued: 1,
        persists: 1,
        ..Tally::default()
    };
    assert_eq!(rt; tally, counted);
    Ok(())
}

/// The tag of the word that an exchange expects is cleared before it, so it is made a second time from the bare word.
#[test]
fn same_version_tag_cleared(rt: HostRuntime) -> Result<(), Fail> {
    let mut rig = Rig::of_rows(&rt, rt.alloc(), 4, 0)?;
    let place = Bits;
    let mut one = Hand::first(1);
    let mut first = PExchange::start(0, 0, 4, LIMIT);
    p_exchange(&rt, &mut rig, &place, &mut one, &mut first, 1)?;
    let mut two = Hand::first(2);
    let found = p_load(&rt, &mut rig, &place, &mut two, 0)?;
    assert_eq!(rt; found, raw(1, 4, true));
    let mut second = PExchange::start(0, found, 8, LIMIT);
    p_exchange(&rt, &mut rig, &place, &mut two, &mut second, 1)?;
    p_exchange(&rt, &mut rig, &place, &mut one, &mut first, 9)?;
    p_exchange(&rt, &mut rig, &place, &mut two, &mut second, 9)?;
    assert_eq!(rt;
        (first.ended(), one.tally.persists),
        (Some(Exchanged::Won), 1)
    );
    assert_eq!(rt;
        (second.ended(), two.tally.persists),
        (Some(Exchanged::Won), 2)
    );
    let (old, new) = (raw(1, 4, false), raw(2, 8, false));
    let (old_tagged, new_tagged) = (raw(1, 4, true), raw(2, 8, true));
    assert_eq!(rt;
        rig.events.as_slice(),
        [
            exchange(0, 0, old_tagged),
            load(0),
            persist(0, old),
            persist(0, old),
            exchange(0, old_tagged, old),
            exchange(0, old_tagged, new_tagged),
            exchange(0, old, new_tagged),
            persist(0, new),
            exchange(0, new_tagged, new),
        ]
        .as_slice()
    );
    Ok(())
}

/// A hand whose queue has the words from 0 to 15, loaded while their slot is raised.
fn full_hand(rt: &impl Abort, rig: &mut Rig) -> Result<Hand, Fail> {
    let mut link = PExchange::start(40, 0, 4, LIMIT);
    p_exchange(rt, rig, &OneSlot, &mut Hand::first(1), &mut link, 1)?;
    let mut hand = Hand::first(2);
    for word in 0..16 {
        p_load(rt, rig, &OneSlot, &mut hand, word)?;
    }
    assert_eq!(rt; rig.events.len(), 33);
    rig.events.clear();
    Ok(hand)
}

fn sixteen(alloc: Global, front: &[Event], back: &[Event]) -> Result<Vec<Event>, Fail> {
    let mut events = Vec::from_slice(alloc, front)?;
    for word in 0..16 {
        events.push(persist(word, 0))?;
    }
    for event in back {
        events.push(*event)?;
    }
    Ok(events)
}

#[test]
fn the_seventeenth_word_forces_a_fence(rt: HostRuntime) -> Result<(), Fail> {
    let mut rig = Rig::of_rows(&rt, rt.alloc(), 30, 1)?;
    let mut hand = full_hand(&rt, &mut rig)?;
    p_load(&rt, &mut rig, &OneSlot, &mut hand, 20)?;
    let events = sixteen(rt.alloc(), &[load(20), Event::ReadTag { slot: 0 }], &[])?;
    assert_eq!(rt; rig.events.as_slice(), events.as_slice());
    assert_eq!(rt; hand.queue.first(), Some(persist(20, 0)));
    let counted = Tally {
        loads: 17,
        queued: 17,
        persists: 17,
        ..Tally::default()
    };
    assert_eq!(rt; complete(&rt, &mut rig, &mut hand)?, counted);
    Ok(())
}

/// Over tags in the words a confirmation makes no event, or just the fence that makes room.
#[test]
fn confirms_without_slots(rt: HostRuntime) -> Result<(), Fail> {
    let mut rig = Rig::of_rows(&rt, rt.alloc(), 30, 1)?;
    let mut hand = full_hand(&rt, &mut rig)?;
    confirm(&rt, &mut rig, &Bits, &mut hand, 20, raw(1, 4, false))?;
    assert!(rt; rig.events.is_empty());
    assert_eq!(rt; hand.tally.omitted, 1);
    confirm(&rt, &mut rig, &Bits, &mut hand, 20, raw(1, 4, true))?;
    let events = sixteen(rt.alloc(), &[], &[])?;
    assert_eq!(rt; rig.events.as_slice(), events.as_slice());
    confirm(&rt, &mut rig, &Bits, &mut hand, 20, raw(2, 4, true))?;
    assert_eq!(rt; rig.events.len(), 16);
    assert_eq!(rt; hand.queue.first(), Some(persist(20, raw(1, 4, false))));
    assert_eq!(rt; (hand.tally.loads, hand.tally.queued), (19, 18));
    Ok(())
}

#[test]
fn stores_after_a_full_queue(rt: HostRuntime) -> Result<(), Fail> {
    let mut rig = Rig::of_rows(&rt, rt.alloc(), 30, 1)?;
    let mut hand = full_hand(&rt, &mut rig)?;
    let stored = private_store(&rt, &mut rig, &mut hand, 30, &[7, 8, 9], LIMIT)?;
    assert_eq!(rt; stored, Stored::Stored);
    let stores = [
        store(30, raw(1, 7, false)),
        store(31, raw(1, 8, false)),
        store(32, raw(1, 9, false)),
    ];
    let events = sixteen(rt.alloc(), &[load(30), load(31), load(32)], &stores)?;
    assert_eq!(rt; rig.events.as_slice(), events.as_slice());
    assert_eq!(rt; (hand.tally.loads, hand.tally.persists), (16, 16));
    let worn = Stored::Worn {
        word: 30,
        version: 1,
    };
    assert_eq!(rt;
        private_store(&rt, &mut rig, &mut hand, 29, &[7, 8, 9], 1)?,
        worn
    );
    let stored = private_store(&rt, &mut rig, &mut hand, 29, &[], 1)?;
    assert_eq!(rt; stored, Stored::Stored);
    assert_eq!(rt; rig.events.len(), 25);
    Ok(())
}

#[test]
fn exchanges_lost_and_worn(rt: HostRuntime) -> Result<(), Fail> {
    let mut rig = Rig::of_rows(&rt, rt.alloc(), 4, 9)?;
    let place = Adjacent;
    let mut hand = Hand::first(1);
    let one = raw(1, 4, false);
    let worn = Exchanged::Worn {
        word: 1,
        version: 1,
    };
    let lost = Exchanged::Lost { found: one };
    let swap = VExchange::start(1, 0, 4, 1);
    assert_eq!(rt; v_exchange(&rt, &mut rig, &hand, swap)?, Exchanged::Won);
    let swap = VExchange::start(1, 0, 8, 1);
    assert_eq!(rt; v_exchange(&rt, &mut rig, &hand, swap)?, lost);
    let swap = VExchange::start(1, one, 8, 1);
    assert_eq!(rt; v_exchange(&rt, &mut rig, &hand, swap)?, worn);
    assert_eq!(rt; PExchange::start(1, one, 8, 1).ended(), Some(worn));
    let mut link = PExchange::start(1, 0, 8, 1);
    p_exchange(&rt, &mut rig, &place, &mut hand, &mut link, 9)?;
    assert_eq!(rt; (link.ended(), hand.tally.failed), (Some(lost), 1));
    let mut evict = Evict::start(hand, 1);
    for _ in 0..2 {
        if let Some(event) = evict.ask() {
            let told = rig.make(&rt, event)?;
            evict.take(told);
        }
    }
    assert_eq!(rt; (evict.at, evict.tally().persists), (Evicting::Done, 1));
    assert_eq!(rt;
        rig.events.as_slice(),
        [
            exchange(1, 0, one),
            exchange(1, 0, raw(1, 8, false)),
            Event::Raise { slot: 1 },
            exchange(1, 0, raw(1, 8, false)),
            Event::Lower { slot: 1 },
            load(1),
            persist(1, one),
        ]
        .as_slice()
    );
    Ok(())
}
