use super::*;
use flit_model::{Ahead, Call, Item};
use flit_words::Kind;
use std::test::Fail;

/// Texts whose first fault is a bad line, with the line.
const BAD: [(&[u8], u32); 66] = [
    (b"flit 3\n", 1),
    (b"flit 01\n", 1),
    (b"flit  1\n", 1),
    (b" flit 1\n", 1),
    (b"flit 1 \n", 1),
    (b"Flit 1\n", 1),
    (b"flit 1\r\n", 1),
    (b"image 1\n", 1),
    (b"end\n", 1),
    (b"structure list\n", 1),
    (b"\n#\nflit 0\n", 3),
    (b"flit 1\nflit 1\n", 2),
    (b"flit 1\nrows 4\n", 2),
    (b"flit 1\nstructure hash 0\n", 2),
    (b"flit 1\nstructure queue\n", 2),
    (b"flit 1\nstructure list\nstructure list\n", 3),
    (b"flit 1\nstructure list\nplace adjacent\nplace packed\n", 4),
    (b"flit 1\nstructure list\nplace hashed 0\n", 3),
    (b"flit 1\nplace packed\n", 2),
    (b"flit 1\nstructure list\nrows 0\n", 3),
    (b"flit 1\nstructure list\nrows 4\nrows 4\n", 4),
    (b"flit 1\nstructure list\nrows 4\nplace packed\n", 4),
    (b"flit 1\nstructure list\nworkers 1\n", 3),
    (b"flit 1\nstructure list\nrows 4\nworkers 0\n", 4),
    (b"flit 1\nstructure list\nrows 4\nend\n", 4),
    (
        b"flit 1\nstructure list\nrows 4\nworkers 1\nversions 0\n",
        5,
    ),
    (
        b"flit 1\nstructure list\nrows 4\nworkers 1\nversions 3\nversions 3\n",
        6,
    ),
    (b"flit 1\nstructure list\nrows 4\nworkers 1\nstart 1\n", 5),
    (b"flit 1\nstructure list\nrows 4\nworkers 2\nend\n\n", 6),
    (b"flit 1\nstructure list\nrows 4\nworkers 2\nend\n#\n", 6),
    (b"flit 1\nstructure list\nrows 4\nworkers 2\nend\nend\n", 6),
    (
        b"flit 1\nstructure list\nrows 4\nworkers 2\n1 insert 4294967293\n",
        5,
    ),
    (
        b"flit 1\nstructure list\nrows 4\nworkers 2\n1 insert 5 7\n",
        5,
    ),
    (b"flit 1\nstructure list\nrows 4\nworkers 2\n1 get 5\n", 5),
    (
        b"flit 1\nstructure list\nrows 4\nworkers 2\n0 insert 5\n",
        5,
    ),
    (
        b"flit 1\nstructure list\nrows 4\nworkers 2\n3 insert 5\n",
        5,
    ),
    (
        b"flit 1\nstructure list\nrows 4\nworkers 2\n2 contains 05\n",
        5,
    ),
    (
        b"flit 1\nstructure list\nrows 4\nworkers 2\n2 remove 4294967293\n",
        5,
    ),
    (
        b"flit 1\nstructure list\nrows 4\nworkers 2\n2 contains 5 \n",
        5,
    ),
    (
        b"flit 1\nstructure list\nrows 4\nworkers 2\n2 contains  5\n",
        5,
    ),
    (b"flit 1\nstructure list\nrows 4\nworkers 2\n2 evict 9\n", 5),
    (
        b"flit 1\nstructure list\nrows 4\nworkers 2\nstop 1 5\n1 insert 5\nstop 1 6\n",
        7,
    ),
    (b"flit 1\nstructure list\nrows 4\nworkers 2\nstop 3 1\n", 5),
    (b"flit 1\nstructure list\nrows 4\nworkers 2\nturn 1 0\n", 5),
    (b"flit 1\nstructure list\nrows 4\nworkers 2\nturn 3 1\n", 5),
    (b"flit 1\nstructure list\nrows 4\nworkers 2\nahead 9\n", 5),
    (b"flit 1\nstructure list\nrows 4\nworkers 2\nbegin\n", 5),
    (
        b"flit 1\nstructure list\nrows 4\nworkers 2\nword 0 1:4\n",
        5,
    ),
    (
        b"flit 1\nstructure list\nrows 4\nworkers 2\nversions 3\nversions 3\n",
        6,
    ),
    (
        b"flit 1\nstructure list\nrows 4\nworkers 2\n1 insert 5\nversions 3\n",
        6,
    ),
    (
        b"flit 1\nstructure list\nrows 4\nworkers 2\n1 insert 5\nstart 1\n",
        6,
    ),
    (
        b"flit 2\nstructure list\nrows 1\nworkers 1\n1 insert 5\n",
        5,
    ),
    (
        b"flit 2\nstructure list\nrows 1\nworkers 1\n1 insert 5 4294967296\n",
        5,
    ),
    (b"flit 2\nstructure list\nrows 1\nworkers 1\n1 evict 4\n", 5),
    (b"flit 2\nstructure list\nrows 1\nworkers 1\nstart 3\n", 5),
    (
        b"flit 2\nstructure list\nrows 1\nworkers 1\nstart 1\nend\n",
        6,
    ),
    (
        b"flit 2\nstructure list\nrows 1\nworkers 1\nstart 1\nword 2 1:5\n#\nword 2 1:6\n",
        8,
    ),
    (
        b"flit 2\nstructure list\nrows 1\nworkers 1\nstart 1\nword 2 1:5\nword 1 1:6\n",
        7,
    ),
    (
        b"flit 2\nstructure list\nrows 1\nworkers 1\nstart 1\nword 3 1:5\n",
        6,
    ),
    (
        b"flit 2\nstructure list\nrows 1\nworkers 1\nstart 2\nword 4 1:5\n",
        6,
    ),
    (
        b"flit 2\nstructure list\nrows 1\nworkers 1\nstart 1\nword 1 0:0\n",
        6,
    ),
    (
        b"flit 2\nstructure list\nrows 1\nworkers 1\nstart 1\nword 0 2147483648:0\n",
        6,
    ),
    (
        b"flit 2\nstructure list\nrows 1\nworkers 1\nstart 1\n1 insert 5 7\n",
        6,
    ),
    (
        b"flit 2\nstructure list\nrows 1\nworkers 1\nstart 1\nbegin\nstart 1\n",
        7,
    ),
    (
        b"flit 2\nstructure list\nrows 1\nworkers 1\nstart 1\nbegin\nbegin\n",
        7,
    ),
    (
        b"flit 1\nstructure list\nrows 4\nworkers 2\n# \x80\nend\n",
        5,
    ),
];

/// Texts whose `end` is missing, with the line behind the last.
const UNENDED: [(&[u8], u32); 10] = [
    (b"", 1),
    (b"flit 1", 2),
    (b"flit 1\nstructure hash 65536\n", 3),
    (b"flit 1\nstructure list\nplace hashed 1048576\n", 4),
    (b"flit 1\nstructure list\nrows 1048575\n", 4),
    (b"flit 1\nstructure list\nrows 4\nworkers 64\n", 5),
    (
        b"flit 1\nstructure list\nrows 4\nworkers 1\nversions 2147483647\n",
        6,
    ),
    (b"flit 1\nstructure list\nrows 4\nworkers 2\n", 5),
    (b"flit 2\nstructure list\nrows 1\nworkers 1\nstart 1\n", 6),
    (b"flit 1\nstructure list\nrows 4\nworkers 2\n1 insert 5", 6),
];

/// Texts with a number past a limit, with its line.
const PAST: [(&[u8], u32, Bound); 5] = [
    (b"flit 1\nstructure hash 65537\n", 2, Bound::Buckets),
    (
        b"flit 1\nstructure list\nplace hashed 1048577\n",
        3,
        Bound::Slots,
    ),
    (b"flit 1\nstructure list\nrows 1048576\n", 3, Bound::Rows),
    (
        b"flit 1\nstructure list\nrows 4\nworkers 65\n",
        4,
        Bound::Workers,
    ),
    (
        b"flit 1\nstructure list\nrows 4\nworkers 1\nversions 2147483648\n",
        5,
        Bound::Versions,
    ),
];

/// Texts that are traces.
const READ: [&[u8]; 14] = [
    b"flit 1\nstructure list\nrows 4\nworkers 2\nend",
    b"flit 1\nstructure list\nrows 4\nworkers 2\nend\n",
    b"flit 1\nstructure list\nrows 4\nworkers 2\n1 insert 4294967292\nend\n",
    b"flit 1\nstructure list\nrows 4\nworkers 2\n2 evict 8\nend\n",
    b"flit 1\nstructure list\nrows 4\nworkers 2\nstop 1 0\nstop 2 5\nend\n",
    b"flit 1\nstructure list\nrows 4\nworkers 2\nturn 1 1\nend\n",
    b"flit 1\nstructure list\nrows 4\nworkers 2\nahead 8\nahead all\nahead all\nend\n",
    b"flit 1\nstructure list\nrows 4\nworkers 2\n\n# 1\n\n1 insert 5\nend\n",
    b"flit 2\nstructure list\nrows 1\nworkers 1\n1 insert 5 4294967295\n1 get 5\nend\n",
    b"flit 2\nstructure list\nrows 1\nworkers 1\n1 evict 3\nend\n",
    b"flit 2\nstructure list\nrows 1\nworkers 1\nstart 1\nbegin\nend\n",
    b"flit 2\nstructure list\nrows 1\nworkers 1\nstart 2\nword 3 1:5t\nbegin\nend\n",
    b"flit 2\nstructure list\nrows 1\nworkers 1\nstart 1\nword 1 0:0t\nbegin\nend\n",
    b"flit 2\nstructure list\nrows 1\nworkers 1\nversions 3\nstart 2\nbegin\nend\n",
];

/// Traces that have no start image.
const HEADED: [&[u8]; 5] = [
    b"flit 1\nstructure list\nrows 4\nworkers 2\nend",
    b"#\n\nflit 2\n# 1\nstructure hash 3\n\nplace hashed 9\nrows 5\nworkers 2\n#\n1 get 5\nend\n",
    b"flit 1\nstructure tree\nplace packed\nrows 6\nworkers 3\n\nversions 7\nahead all\nend\n",
    b"flit 2\nstructure tree\nplace lines\nrows 7\nworkers 64\nversions 3\nstop 1 0\nend\n",
    b"flit 2\nstructure list\nplace adjacent\nrows 2\nworkers 1\n1 insert 5 7\n1 get 5\nend\n",
];

/// Texts that have a start block, or whose lines up to the body's first aren't right, or aren't all
/// there.
const UNTOLD: [&[u8]; 9] = [
    b"",
    b"flit 3\nstructure list\nrows 4\nworkers 2\nend\n",
    b"flit 1\nstructure list\nrows 4\nend\n",
    b"flit 1\nstructure list\nrows 1048576\nworkers 2\nend\n",
    b"flit 1\nstructure list\n# \x80\nrows 4\nworkers 2\nend\n",
    b"flit 1\nstructure list\nrows 4\nworkers 2\nversions 7\n# 1\n",
    b"flit 1\nstructure list\nrows 4\nworkers 2\n3 insert 5\nend\n",
    b"flit 2\nstructure list\nrows 1\nworkers 1\nstart 1\nbegin\nend\n",
    b"flit 2\nstructure list\nrows 1\nworkers 1\nversions 3\nstart 2\nbegin\n1 get 5\nend\n",
];

const VALUED: &[u8] = b"flit 2\nstructure list\nrows 4\nworkers 1\n\
      1 insert 5 70\n1 insert 5 80\n1 get 5\n1 get 6\nend\n";

const STARTED: &[u8] = b"flit 2\nstructure list\nrows 4\nworkers 1\n\
      start 1\nword 0 3:8\nword 1 1:5\nword 2 2:1\nword 3 1:5\nword 4 1:0\nbegin\n\
      1 get 5\n1 insert 6 9\nend\n";

const BUSY: &[u8] = b"flit 1\nstructure hash 3\nplace lines\nrows 5\nworkers 2\nversions 7\n\
      2 insert 5\n# 1\n1 evict 12\nturn 2 3\n2 remove 6\nstop 2 0\nahead 3\nturn 1 1\n\
      1 contains 7\nahead 0\nend\n";

#[test]
fn bad_lines_are_named(rt: HostRuntime) {
    for (text, line) in BAD {
        assert_eq!(rt;
            read_trace(rt.alloc(), text).err(),
            Some(TraceError::BadLine { line })
        );
    }
}

#[test]
fn a_missing_end_is_named(rt: HostRuntime) {
    for (text, line) in UNENDED {
        assert_eq!(rt;
            read_trace(rt.alloc(), text).err(),
            Some(TraceError::NoEnd { line })
        );
    }
}

#[test]
fn numbers_past_limits_are_named(rt: HostRuntime) {
    for (text, line, limit) in PAST {
        assert_eq!(rt;
            read_trace(rt.alloc(), text).err(),
            Some(TraceError::Limit { line, limit })
        );
    }
}

#[test]
fn traces_are_read(rt: HostRuntime) {
    for text in READ {
        assert!(rt; read_trace(rt.alloc(), text).is_ok());
    }
}

#[test]
fn a_head_is_told_ahead(rt: HostRuntime) -> Result<(), Fail> {
    for text in HEADED {
        let trace = read_trace(rt.alloc(), text)?;
        assert_eq!(rt; head_ahead(text), Some(trace.head()));
    }
    Ok(())
}

#[test]
fn no_head_is_told(rt: HostRuntime) {
    for text in UNTOLD {
        assert!(rt; head_ahead(text).is_none());
    }
}

#[test]
fn values_are_read(rt: HostRuntime) -> Result<(), Fail> {
    let trace = read_trace(rt.alloc(), VALUED)?;
    assert!(rt; trace.head().layout.values);
    assert_eq!(rt; trace.head().layout.slots, 13);
    assert_eq!(rt; trace.calls(), 4);
    let script: Vec<(u32, Item)> = trace.script(1).collect(rt.alloc())?;
    let expected = [
        (5, Item::Call(Call::Insert(5, 70))),
        (6, Item::Call(Call::Insert(5, 80))),
        (7, Item::Call(Call::Get(5))),
        (8, Item::Call(Call::Get(6))),
    ];
    assert_eq!(rt; script.as_slice(), expected.as_slice());
    assert!(rt; trace.start().is_none());
    Ok(())
}

#[test]
fn a_start_image_is_read(rt: HostRuntime) -> Result<(), Fail> {
    let trace = read_trace(rt.alloc(), STARTED)?;
    let image = trace.start().ok_or("a start image")?;
    let words = [
        25769803784,
        8589934597,
        17179869185,
        8589934597,
        8589934592,
        0,
        0,
        0,
        0,
        0,
        0,
        0,
        0,
    ];
    assert_eq!(rt; image.words.as_slice(), words.as_slice());
    assert!(rt; image.values);
    let script: Vec<(u32, Item)> = trace.script(1).collect(rt.alloc())?;
    let expected = [
        (12, Item::Call(Call::Get(5))),
        (13, Item::Call(Call::Insert(6, 9))),
    ];
    assert_eq!(rt; script.as_slice(), expected.as_slice());
    Ok(())
}

#[test]
fn each_part_is_answered(rt: HostRuntime) -> Result<(), Fail> {
    let trace = read_trace(rt.alloc(), BUSY)?;
    let head = trace.head();
    assert_eq!(rt; head.layout.workers, 2);
    assert_eq!(rt; head.place, Place::Lines);
    assert_eq!(rt; head.layout.kind, Kind::Hash);
    assert_eq!(rt; (head.layout.buckets, head.layout.rows), (3, 5));
    assert_eq!(rt; (head.layout.slots, head.layout.limit), (2, 7));
    assert_eq!(rt; trace.calls(), 3);
    let first: Vec<(u32, Item)> = trace.script(1).collect(rt.alloc())?;
    let expected = [(9, Item::Evict(12)), (15, Item::Call(Call::Contains(7)))];
    assert_eq!(rt; first.as_slice(), expected.as_slice());
    let second: Vec<(u32, Item)> = trace.script(2).collect(rt.alloc())?;
    let expected = [
        (7, Item::Call(Call::Insert(5, 0))),
        (11, Item::Call(Call::Remove(6))),
    ];
    assert_eq!(rt; second.as_slice(), expected.as_slice());
    assert_eq!(rt; (trace.stop(1), trace.stop(2)), (None, Some(0)));
    let turns: Vec<(u32, u64)> = trace.turns().collect(rt.alloc())?;
    assert_eq!(rt; turns.as_slice(), [(2, 3), (1, 1)].as_slice());
    let Ahead::Words(words) = trace.ahead() else {
        return Err(Fail::from("words ahead"));
    };
    assert_eq!(rt; words.as_slice(), [3, 0].as_slice());
    Ok(())
}
