use crate::replays::{call_of, made, written};
use std::alloc::Global;
use std::collections::BTreeSet;
use std::process::Abort;
use std::sync::Wait;
use std::test::Fail;
use std::thread::Threads;

/// A trace's structure, its rows and workers, and the items that the workers make.
const BODIES: [(&str, &str, &str); 6] = [
    (
        "list",
        "rows 4\nworkers 1",
        "1 insert 5\n1 remove 5\n1 insert 5\n",
    ),
    ("list", "rows 4\nworkers 2", "1 insert 5\n2 contains 5\n"),
    (
        "list",
        "rows 6\nworkers 2",
        "1 insert 5\n1 remove 5\n2 insert 5\n",
    ),
    (
        "list",
        "rows 6\nworkers 2",
        "1 insert 5\n1 insert 7\n1 remove 5\n2 evict 0\n2 remove 7\n",
    ),
    (
        "hash 2",
        "rows 8\nworkers 2",
        "1 insert 1\n1 insert 2\n2 remove 1\n",
    ),
    (
        "hash 2",
        "rows 8\nworkers 2",
        "1 insert 1\n2 insert 1\n1 remove 1\n2 contains 1\n",
    ),
];

/// The call of a line of a history, behind the name of its worker.
fn entry_of(line: &str) -> Option<&str> {
    let (_, call) = line.strip_prefix("history ")?.split_once(' ')?;
    Some(call)
}

/// The keys behind a report's history, whose replies are all right.
fn keys_of_history(rt: &impl Abort, alloc: Global, report: &str) -> Result<BTreeSet<u64>, Fail> {
    let mut keys = BTreeSet::new(alloc);
    for line in report.lines() {
        let Some(entry) = entry_of(line) else {
            continue;
        };
        let Some(call) = call_of(entry) else {
            return Err(Fail::from("a line of the history has no call"));
        };
        let reply = made(&mut keys, call)?;
        assert_eq!(rt; call.reply, Some(reply));
    }
    Ok(keys)
}

/// The keys of a report are those behind its history.
fn agrees(rt: &impl Abort, alloc: Global, report: &str) -> Result<(), Fail> {
    let mut keys = keys_of_history(rt, alloc, report)?;
    for line in report.lines() {
        let Some(found) = line.strip_prefix("keys") else {
            continue;
        };
        for word in found.split_whitespace() {
            if let Ok(key) = word.parse::<u64>() {
                assert!(rt; keys.remove(&key));
            }
        }
    }
    assert!(rt; keys.is_empty());
    Ok(())
}

/// Worker 1 stops after each small number of events, and the crash takes no value ahead, or each.
fn every_stop<R: AllocGlobal + Abort + Threads + Wait + Sync>(
    rt: &R,
    place: &str,
) -> Result<(), Fail> {
    let alloc = rt.alloc();
    for (structure, sizes, body) in BODIES {
        for stop in 0..45u64 {
            for ahead in ["", "ahead all\n", "ahead 0\n"] {
                let trace = format!(in alloc;
                    "flit 1\nstructure {structure}\nplace {place}\n{sizes}\n{body}stop 1 {stop}\n{ahead}end\n"
                )?;
                let report = written(rt, &["step"], trace.as_str(), 4000)?;
                agrees(rt, alloc, report.as_str())?;
            }
        }
    }
    Ok(())
}

#[test]
fn every_stop_beside_each_word(rt: HostRuntime) -> Result<(), Fail> {
    every_stop(&rt, "adjacent")
}

#[test]
fn every_stop_with_one_count(rt: HostRuntime) -> Result<(), Fail> {
    every_stop(&rt, "hashed 1")
}

#[test]
fn every_stop_in_bits(rt: HostRuntime) -> Result<(), Fail> {
    every_stop(&rt, "packed")
}
