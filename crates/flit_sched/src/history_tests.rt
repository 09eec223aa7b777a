use crate::histories::history_ahead;
use crate::players::{Player, Waiting};
use flit_model::{Ahead, Call, Entry, Placed, Reply, Work};
use std::alloc::Global;
use std::test::Fail;

fn entry_of(worker: u32, number: u32, call: Call) -> Entry {
    Entry {
        worker,
        number,
        call,
        reply: Reply::Yes,
    }
}

fn read_of(position: u32, worker: u32, number: u32) -> Placed {
    Placed {
        position,
        entry: entry_of(worker, number, Call::Contains(5)),
    }
}

// A worker whose update waits at a word.
fn waits_at(alloc: Global, word: u32, entry: Entry) -> Player<()> {
    Player {
        worker: (),
        work: Work {
            items: Vec::new(alloc),
            stop: None,
        },
        left: None,
        over: 0,
        outcomes: Vec::new(alloc),
        waiting: Some(Waiting { word, entry }),
        noted: None,
    }
}

#[test]
fn reads_stand_at_their_places_and_what_is_taken_behind(rt: HostRuntime) -> Result<(), Fail> {
    let alloc = rt.alloc();
    let settled = [
        entry_of(1, 1, Call::Insert(5, 0)),
        entry_of(2, 2, Call::Remove(5)),
    ];
    let reads = [
        read_of(2, 1, 3),
        read_of(1, 2, 1),
        read_of(0, 3, 1),
        read_of(1, 1, 2),
    ];
    let low = entry_of(4, 1, Call::Insert(6, 0));
    let high = entry_of(3, 2, Call::Insert(7, 0));
    let players = [waits_at(alloc, 9, high), waits_at(alloc, 4, low)];
    let whole = history_ahead(alloc, &settled, &reads, &players, &Ahead::All)?;
    let want = [
        reads[2].entry,
        settled[0],
        reads[3].entry,
        reads[1].entry,
        settled[1],
        reads[0].entry,
        low,
        high,
    ];
    assert_eq!(rt; whole.as_slice(), want.as_slice());
    let words = Ahead::Words(Vec::from_slice(alloc, &[5, 9])?);
    let some = history_ahead(alloc, &[], &[], &players, &words)?;
    assert_eq!(rt; some.as_slice(), [high].as_slice());
    let none = history_ahead(alloc, &[], &[], &players, &Ahead::None)?;
    assert_eq!(rt; none.len(), 0);
    Ok(())
}
