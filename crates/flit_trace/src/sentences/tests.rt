use super::*;

const SAID: [(&str, Sentence); 30] = [
    ("flit 2", Sentence::Version { number: 2 }),
    ("flit 9999999999", Sentence::Version { number: 9999999999 }),
    (
        "structure list",
        Sentence::Structure {
            kind: Kind::List,
            buckets: 1,
        },
    ),
    (
        "structure hash 256",
        Sentence::Structure {
            kind: Kind::Hash,
            buckets: 256,
        },
    ),
    (
        "structure hash 0",
        Sentence::Structure {
            kind: Kind::Hash,
            buckets: 0,
        },
    ),
    (
        "structure tree",
        Sentence::Structure {
            kind: Kind::Tree,
            buckets: 0,
        },
    ),
    ("place adjacent", Sentence::Adjacent),
    ("place hashed 64", Sentence::Hashed { slots: 64 }),
    ("place packed", Sentence::Packed),
    ("place lines", Sentence::Lines),
    ("rows 1048575", Sentence::Rows { rows: 1048575 }),
    ("workers 8", Sentence::Workers { workers: 8 }),
    ("versions 3", Sentence::Versions { limit: 3 }),
    ("start 1", Sentence::Start { version: 1 }),
    (
        "word 0 3:8",
        Sentence::Word {
            word: 0,
            raw: 25769803784,
        },
    ),
    (
        "word 3 0:7t",
        Sentence::Word {
            word: 3,
            raw: 4294967303,
        },
    ),
    ("begin", Sentence::Begin),
    (
        "1 insert 5",
        Sentence::Insert {
            worker: 1,
            key: 5,
            value: None,
        },
    ),
    (
        "64 insert 4294967292 0",
        Sentence::Insert {
            worker: 64,
            key: 4294967292,
            value: Some(0),
        },
    ),
    ("2 remove 5", Sentence::Remove { worker: 2, key: 5 }),
    (
        "0 remove 4294967295",
        Sentence::Remove {
            worker: 0,
            key: 4294967295,
        },
    ),
    ("3 contains 0", Sentence::Contains { worker: 3, key: 0 }),
    ("4 get 7", Sentence::Get { worker: 4, key: 7 }),
    ("5 evict 9", Sentence::Evict { worker: 5, word: 9 }),
    (
        "stop 1 12",
        Sentence::Stop {
            worker: 1,
            events: 12,
        },
    ),
    (
        "turn 2 3",
        Sentence::Turn {
            worker: 2,
            events: 3,
        },
    ),
    ("ahead 17", Sentence::Ahead { word: 17 }),
    ("ahead 0", Sentence::Ahead { word: 0 }),
    ("ahead all", Sentence::AheadAll),
    ("end", Sentence::End),
];

const REFUSED: [&str; 26] = [
    "",
    " end",
    "end ",
    "end\r",
    "END",
    "rows",
    "rows ",
    "rows 01",
    "rows  5",
    "rows +5",
    "rows 10000000000",
    "1",
    "1 ",
    "1 insert",
    "1 insert -1",
    "01 insert 5",
    "1 insert 5 06",
    "1 insert 5 6 7",
    "1 Insert 5",
    "stop 1",
    "stop 1  2",
    "ahead all x",
    "structure queue",
    "structure hash",
    "word 0 2147483648:1",
    "hello",
];

#[test]
fn these_lines_say_something(rt: HostRuntime) {
    for (line, sentence) in SAID {
        assert_eq!(rt; sentence_of(line.as_bytes()), Some(sentence));
    }
}

#[test]
fn these_lines_say_nothing(rt: HostRuntime) {
    for line in REFUSED {
        assert_eq!(rt; sentence_of(line.as_bytes()), None);
    }
}
