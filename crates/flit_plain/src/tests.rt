ghost use Rattle.std.specs.Prelude.{◌<◌, ◌^◌};

use super::*;
use flit_model::{Call, Entry, Placed, Reply};
use flit_words::{Kind, Layout};
use std::test::Fail;

const GREATEST: u32 = 2147483647;

// A raw word of version n and value x is n * V + x.
const V: u64 = 1 << 33;

const TAG: u64 = 1 << 32;

const MARKED: u64 = 1;

const MARKED_BY_3: u64 = (3 << 24) + 1;

// Row 2 has key 5; row 1 had it before.
const ONE_KEY: [u64; 9] = [3 * V + 8, V + 5, 2 * V + 1, V + 5, V, 0, 0, 0, 0];

// Rows 1 and 2 with these keys, of which row 2's own link is the last word.
fn two_rows(first: u64, second: u64, last: u64) -> [u64; 9]
    requires first { first < 2 ^ 32 }
    requires second { second < 2 ^ 32 }
    requires last { last < 2 ^ 32 }
{
    [V + 4, V + first, V + 8, V + second, V + last, 0, 0, 0, 0]
}

// The fixed rows, then rows 6 to 8: below word 4 inner row 7, with leaf 6 of key 5 on its left and row 3 on its right.
fn one_leaf(left: u64, right: u64) -> [u64; 24]
    requires left { left < 2 ^ 32 }
    requires right { right < 2 ^ 32 }
{
    [
        4294967295,
        8,
        20,
        4294967294,
        V + 28,
        16,
        4294967293,
        0,
        0,
        4294967294,
        0,
        0,
        4294967295,
        0,
        0,
        V + 5,
        V,
        V,
        V + 4294967293,
        V + left,
        V + right,
        0,
        0,
        0,
    ]
}

#[test]
fn a_list_recovers(rt: HostRuntime) -> Result<(), Fail> {
    let list = Layout::new(Kind::List, 1, 4, 9, 1, GREATEST).ok_or("accepted")?;
    let found = recovery(rt.alloc(), &list, &ONE_KEY)?.ok_or("lawful")?;
    assert_eq!(rt; found.pairs.as_slice(), [(5, 0)].as_slice());
    assert_eq!(rt; found.free.as_slice(), [1, 3, 4].as_slice());
    let removed = recovery(rt.alloc(), &list, &two_rows(5, 6, MARKED))?.ok_or("lawful")?;
    assert_eq!(rt; removed.pairs.as_slice(), [(5, 0)].as_slice());
    assert_eq!(rt; removed.free.as_slice(), [3, 4].as_slice());
    Ok(())
}

#[test]
fn lists_are_lawful_or_not(rt: HostRuntime) -> Result<(), Fail> {
    let list = Layout::new(Kind::List, 1, 4, 9, 1, GREATEST).ok_or("accepted")?;
    assert!(rt; is_lawful(&list, &[0; 9]));
    assert!(rt; !is_lawful(&list, &[0; 8]));
    assert!(rt; !is_lawful(&list, &[TAG, 0, 0, 0, 0, 0, 0, 0, 0]));
    assert!(rt; is_lawful(&list, &two_rows(5, 6, 0)));
    assert!(rt; !is_lawful(&list, &two_rows(5, 5, 0)));
    assert!(rt; !is_lawful(&list, &two_rows(5, 4294967293, 0)));
    assert!(rt; !is_lawful(&list, &two_rows(5, 6, MARKED_BY_3)));
    Ok(())
}

#[test]
fn values_come_with_their_keys(rt: HostRuntime) -> Result<(), Fail> {
    let list = Layout::new(Kind::List, 1, 1, 0, 3, GREATEST).ok_or("accepted")?;
    let valued = list.with_values(4).ok_or("accepted")?;
    let kept = recovery(rt.alloc(), &valued, &[V + 4, V + 5, V, V + 7])?.ok_or("lawful")?;
    assert_eq!(rt; kept.pairs.as_slice(), [(5, 7)].as_slice());
    assert!(rt; is_lawful(&valued, &[V + 4, V + 5, V + MARKED_BY_3, V + 7]));
    assert!(rt; !is_lawful(&list, &[V + 4, V + 5, V + MARKED_BY_3]));
    Ok(())
}

#[test]
fn a_key_stands_in_its_bucket(rt: HostRuntime) -> Result<(), Fail> {
    let hash = Layout::new(Kind::Hash, 2, 4, 0, 1, GREATEST).ok_or("accepted")?;
    assert!(rt; is_lawful(&hash, &[0; 10]));
    assert!(rt; is_lawful(&hash, &[V + 4, 0, V, V, 0, 0, 0, 0, 0, 0]));
    assert!(rt; !is_lawful(&hash, &[V + 4, V + 4, V, V, 0, 0, 0, 0, 0, 0]));
    let both = [V + 8, V + 4, V + 1, V, V + 2, V, 0, 0, 0, 0];
    let found = recovery(rt.alloc(), &hash, &both)?.ok_or("lawful")?;
    assert_eq!(rt; found.pairs.as_slice(), [(1, 0), (2, 0)].as_slice());
    Ok(())
}

#[test]
fn a_tree_recovers(rt: HostRuntime) -> Result<(), Fail> {
    let tree = Layout::new(Kind::Tree, 0, 3, 0, 1, GREATEST).ok_or("accepted")?;
    let kept = recovery(rt.alloc(), &tree, &one_leaf(24, 12))?.ok_or("lawful")?;
    assert_eq!(rt; kept.pairs.as_slice(), [(5, 0)].as_slice());
    assert_eq!(rt; kept.free.as_slice(), [8].as_slice());
    let flagged = recovery(rt.alloc(), &tree, &one_leaf(25, 14))?.ok_or("lawful")?;
    assert_eq!(rt; flagged.pairs.len(), 0);
    assert_eq!(rt; flagged.free.as_slice(), [8].as_slice());
    assert!(rt; !is_lawful(&tree, &one_leaf(24, 14)));
    Ok(())
}

#[test]
fn a_tree_has_row_3(rt: HostRuntime) -> Result<(), Fail> {
    let tree = Layout::new(Kind::Tree, 0, 1, 0, 1, GREATEST).ok_or("accepted")?;
    let mut words = [
        4294967295, 8, 20, 4294967294, 12, 16, 4294967293, 0, 0, 4294967294, 0, 0, 4294967295, 0,
        0, 0, 0, 0,
    ];
    let fresh = recovery(rt.alloc(), &tree, &words)?.ok_or("lawful")?;
    assert_eq!(rt; fresh.pairs.len(), 0);
    assert_eq!(rt; fresh.free.as_slice(), [6].as_slice());
    words[4] = V + 20;
    assert!(rt; !is_lawful(&tree, &words));
    Ok(())
}

#[test]
fn calls_are_answered(rt: HostRuntime) -> Result<(), Fail> {
    let calls = [
        Call::Insert(5, 7),
        Call::Insert(5, 8),
        Call::Get(5),
        Call::Remove(5),
        Call::Get(5),
        Call::Contains(5),
    ];
    let replies = play(rt.alloc(), &calls)?;
    let want = [
        Reply::Yes,
        Reply::No,
        Reply::Found { value: 7 },
        Reply::Yes,
        Reply::No,
        Reply::No,
    ];
    assert_eq!(rt; replies.as_slice(), want.as_slice());
    Ok(())
}

fn entry_of(worker: u32, number: u32, call: Call) -> Entry {
    Entry {
        worker,
        number,
        call,
        reply: Reply::Yes,
    }
}

fn read_of(position: u32, worker: u32, number: u32) -> Placed {
    Placed {
        position,
        entry: entry_of(worker, number, Call::Contains(5)),
    }
}

#[test]
fn reads_find_their_places(rt: HostRuntime) -> Result<(), Fail> {
    let updates = [
        entry_of(1, 1, Call::Insert(5, 0)),
        entry_of(2, 2, Call::Remove(5)),
    ];
    let reads = [
        read_of(2, 1, 3),
        read_of(1, 2, 1),
        read_of(0, 3, 1),
        read_of(1, 1, 2),
    ];
    let whole = history(rt.alloc(), &updates, &reads)?;
    let want = [
        reads[2].entry,
        updates[0],
        reads[3].entry,
        reads[1].entry,
        updates[1],
        reads[0].entry,
    ];
    assert_eq!(rt; whole.as_slice(), want.as_slice());
    Ok(())
}
