use super::*;
use flit_model::{Call, Entry, Event, Outcome, Reply, Tally};
use std::alloc::{AllocError, Global};
use std::test::Fail;

// Version 1: value 4 without a tag, value 4 with one, value 5.
const FOUR: u64 = 0x2_0000_0004;

const TAGGED: u64 = 0x3_0000_0004;

const FIVE: u64 = 0x2_0000_0005;

fn shown(worker: u32, event: Event, answer: u64) -> Shown {
    Shown {
        worker,
        event,
        answer,
    }
}

fn exchange(old: u64, new: u64) -> Event {
    Event::Exchange { word: 0, old, new }
}

fn persist(kept: u64) -> Event {
    Event::Persist { word: 1, kept }
}

fn store(new: u64) -> Event {
    Event::Store { word: 9, new }
}

fn every_event(alloc: Global) -> Result<Vec<Shown>, AllocError> {
    let events = [
        shown(1, Event::Load { word: 0 }, TAGGED),
        shown(2, Event::ReadTag { slot: 3 }, 7),
        shown(2, Event::Raise { slot: 3 }, 8),
        shown(2, Event::Lower { slot: 3 }, 7),
        shown(1, exchange(5, TAGGED), 6),
        shown(1, persist(FIVE), 0),
        shown(3, store(u64::MAX), 1),
        shown(1, Event::Draw, 10),
    ];
    Ok(Vec::from_array(alloc, events)?)
}

fn line(worker: u32, call: Call, outcome: Outcome) -> Line {
    Line {
        worker,
        call,
        outcome,
    }
}

fn every_outcome(alloc: Global) -> Result<Vec<Line>, AllocError> {
    let found = Reply::Found { value: 7 };
    let full = Reply::Full { ticket: 1 };
    let worn = Reply::Worn {
        word: 4,
        version: 2147483647,
    };
    let lines = [
        line(1, Call::Insert(5, 7), Outcome::Replied(Reply::Yes)),
        line(1, Call::Remove(6), Outcome::Replied(Reply::No)),
        line(2, Call::Contains(5), Outcome::Stopped),
        line(1, Call::Get(5), Outcome::Replied(found)),
        line(1, Call::Insert(2, 8), Outcome::Replied(full)),
        line(3, Call::Remove(2), Outcome::Replied(worn)),
    ];
    Ok(Vec::from_array(alloc, lines)?)
}

fn entry(number: u32, call: Call, reply: Reply) -> Entry {
    Entry {
        worker: 1,
        number,
        call,
        reply,
    }
}

fn every_kind(alloc: Global) -> Result<Report, AllocError> {
    let counts = Tally {
        loads: 1,
        omitted: 2,
        queued: 3,
        persists: 4,
        failed: 5,
        helped: 6,
        tries: u64::MAX,
    };
    let inserted = entry(1, Call::Insert(5, 7), Reply::Yes);
    let found = entry(3, Call::Get(5), Reply::Found { value: 7 });
    Ok(Report {
        summary: false,
        version: 2,
        events: every_event(alloc)?,
        lines: every_outcome(alloc)?,
        history: vec![in alloc; inserted, found]?,
        tallies: vec![in alloc; counts, Tally::default()]?,
        keys: vec![in alloc; 5, 10]?,
        values: vec![in alloc; 7, u32::MAX]?,
        free: 3,
    })
}

#[test]
fn version_two_shows_every_kind_of_line(rt: HostRuntime) -> Result<(), Fail> {
    let report = every_kind(rt.alloc())?;
    let text = report_text(rt.alloc(), &report)?;
    let expected = "event 1 load 0 1:4t
event 2 readtag 3 7
event 2 raise 3 8
event 2 lower 3 7
event 1 exchange 0 0:5 1:4t 0:6
event 1 persist 1 1:5 0:0
event 3 store 9 2147483647:4294967295t
event 1 draw 10
call 1 insert 5 7 yes
call 1 remove 6 no
call 2 contains 5 stopped
call 1 get 5 value 7
call 1 insert 2 8 full 1
call 3 remove 2 worn 4 2147483647
history 1 1 insert 5 7 yes
history 1 3 get 5 value 7
worker 1 loads 1 omitted 2 queued 3 persists 4 failed 5 helped 6 tries 18446744073709551615
worker 2 loads 0 omitted 0 queued 0 persists 0 failed 0 helped 0 tries 0
keys 5 10
values 7 4294967295
free 3
";
    assert_eq!(rt; text.as_slice(), expected.as_bytes());
    Ok(())
}

fn examples(alloc: Global) -> Result<Report, AllocError> {
    let full = Outcome::Replied(Reply::Full { ticket: 1 });
    let inserted = line(1, Call::Insert(5, 0), Outcome::Replied(Reply::Yes));
    let refused = line(1, Call::Insert(2, 0), full);
    let exchanged = shown(1, exchange(0, FOUR), 0);
    let persisted = shown(1, persist(FIVE), 0);
    let drawn = shown(1, Event::Draw, 0);
    let counts = Tally {
        loads: 1,
        omitted: 1,
        persists: 3,
        tries: 1,
        ..Tally::default()
    };
    Ok(Report {
        summary: false,
        version: 1,
        events: vec![in alloc; exchanged, persisted, drawn]?,
        lines: vec![in alloc; inserted, refused]?,
        history: vec![in alloc; entry(1, Call::Insert(5, 0), Reply::Yes)]?,
        tallies: vec![in alloc; counts]?,
        keys: Vec::new(alloc),
        values: Vec::new(alloc),
        free: 3,
    })
}

#[test]
fn version_one_shows_no_values(rt: HostRuntime) -> Result<(), Fail> {
    let report = examples(rt.alloc())?;
    let text = report_text(rt.alloc(), &report)?;
    let expected = "event 1 exchange 0 0:0 1:4 0:0
event 1 persist 1 1:5 0:0
event 1 draw 0
call 1 insert 5 yes
call 1 insert 2 full 1
history 1 1 insert 5 yes
worker 1 loads 1 omitted 1 queued 0 persists 3 failed 0 helped 0 tries 1
keys
free 3
";
    assert_eq!(rt; text.as_slice(), expected.as_bytes());
    Ok(())
}

#[test]
fn a_summary_has_six_counts(rt: HostRuntime) -> Result<(), Fail> {
    let report = Report {
        summary: true,
        ..every_kind(rt.alloc())?
    };
    let text = report_text(rt.alloc(), &report)?;
    let expected = "calls 6
done 3
stopped 1
full 1
worn 1
keys 2
";
    assert_eq!(rt; text.as_slice(), expected.as_bytes());
    Ok(())
}
