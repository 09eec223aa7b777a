ghost use Rattle.std.specs.Prelude.{◌≡◌};
ghost use Rattle.flit_list_laws.specs.ListCrew.{IsOfLists};

use crate::Marked;
use arrayvec::ArrayVec;
use flit_list::List;
use flit_list_steps::{LinkWord, ListOp, Path, Phase};
use flit_model::{Call, Reply};
use flit_place::Adjacent;
use flit_pv::{Exchanging, Hand, PExchange, PrivateStore};
use flit_rows::Pool;
use flit_structure::Structure;
use flit_words::{Kind, Layout};
use std::alloc::Global;
use std::test::Fail;

/// A list of three rows with values.
fn layout() -> Layout
    ensures { IsOfLists result }
{
    Layout {
        kind: Kind::List,
        buckets: 1,
        rows: 3,
        slots: 10,
        workers: 2,
        limit: 9,
        values: true,
    }
}

fn list(alloc: Global) -> Result<List<Adjacent>, Fail> {
    Ok(List::new(layout(), Adjacent, Pool::new(alloc, &[3])?))
}

/// A link word that is confirmed.
fn loaded(word: u32, raw: u64) -> LinkWord {
    LinkWord {
        word,
        raw,
        confirmed: true,
    }
}

/// A call whose search has come to row 2, behind the head, which leads on to row 1.
fn stands(call: Call, at: Phase) -> ListOp {
    ListOp {
        call,
        reply: Reply::No,
        hand: Hand::first(2),
        path: Path {
            back: None,
            pred: loaded(0, 8),
            next: loaded(4, 4),
        },
        store: PrivateStore::start(0, ArrayVec::new(), 0),
        at,
    }
}

/// An Exchange that comes next, from version 0 to version 1 with this value.
fn exchange(word: u32, from: u64, value: u64) -> PExchange {
    PExchange {
        word,
        from,
        to: 8589934592 | value,
        at: Exchanging::TriesBare,
    }
}

#[test]
fn an_insert_tells_its_own_row(rt: HostRuntime) -> Result<(), Fail> {
    let list = list(rt.alloc())?;
    let op = stands(Call::Insert(5, 7), Phase::Link(exchange(0, 8, 12)));
    assert!(rt; list.takes_effect(&op));
    assert_eq!(rt; list.row(&op), 3);
    Ok(())
}

#[test]
fn a_remove_tells_the_row_that_it_found(rt: HostRuntime) -> Result<(), Fail> {
    let list = list(rt.alloc())?;
    let op = stands(Call::Remove(5), Phase::Mark(exchange(4, 4, 33554437)));
    assert!(rt; list.takes_effect(&op));
    assert_eq!(rt; list.row(&op), 2);
    Ok(())
}
