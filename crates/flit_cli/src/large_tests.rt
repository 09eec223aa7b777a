use crate::replays::{Kind, Line, call_of, made, written};
use std::alloc::Global;
use std::collections::BTreeSet;
use std::process::Abort;
use std::sync::Wait;
use std::test::Fail;
use std::thread::Threads;

/// More bytes than any text here has. No proof looks at the number, behind a function.
fn room() -> usize {
    2000000
}

/// The trace of 20000 calls.
fn large_trace<R: AllocGlobal + Threads + Wait + Sync>(rt: &R) -> Result<String, Fail> {
    written(rt, &["make", "7", "20000", "4096", "8"], "", room())
}

/// How many keys one thread has once it has made the calls of a trace.
fn keys_of_replay(alloc: Global, trace: &str) -> Result<usize, Fail> {
    let mut keys = BTreeSet::new(alloc);
    for line in trace.lines() {
        if let Some(call) = call_of(line) {
            made(&mut keys, call)?;
        }
    }
    Ok(keys.len())
}

#[test]
fn a_large_valid_input(rt: HostRuntime) -> Result<(), Fail> {
    let trace = large_trace(&rt)?;
    let keys = keys_of_replay(rt.alloc(), trace.as_str())?;
    assert_eq!(rt; keys, 8062);
    let counts = "calls 20000\ndone 20000\nstopped 0\nfull 0\nworn 0\nkeys 8062\n";
    let summary = written(&rt, &["run", "--summary"], trace.as_str(), room())?;
    assert_eq!(rt; summary.as_str(), counts);
    Ok(())
}

fn is_among(calls: &[Line], kind: Kind, key: u64) -> bool {
    calls
        .iter()
        .any(|call| call.kind == kind && call.key == key)
}

/// Makes the calls of a report in its order, by which those of each key are in the order of its one worker. Each reply is
/// right. Answers the keys behind them, and the first stopped call of each worker.
fn replayed(
    rt: &impl Abort,
    alloc: Global,
    report: &str,
) -> Result<(BTreeSet<u64>, Vec<Line>), Fail> {
    let mut keys = BTreeSet::new(alloc);
    let mut unfinished: Vec<Line> = Vec::new(alloc);
    for line in report.lines() {
        let Some(call) = line.strip_prefix("call ").and_then(call_of) else {
            continue;
        };
        match call.reply {
            Some(reply) => assert_eq!(rt; made(&mut keys, call)?, reply),
            None => {
                if !unfinished.iter().any(|other| other.worker == call.worker) {
                    unfinished.push(call)?;
                }
            }
        }
    }
    Ok((keys, unfinished))
}

/// The keys found are those of the done calls, but for at most one unfinished update of each worker that was stopped.
fn is_explained(rt: &impl Abort, alloc: Global, report: &str) -> Result<(), Fail> {
    let (mut keys, unfinished) = replayed(rt, alloc, report)?;
    assert_eq!(rt; unfinished.len(), 2);
    for call in &unfinished {
        assert!(rt; call.worker <= 2);
    }
    for line in report.lines() {
        let Some(found) = line.strip_prefix("keys") else {
            continue;
        };
        for word in found.split_whitespace() {
            if let Ok(key) = word.parse::<u64>() {
                let is_done = keys.remove(&key);
                assert!(rt;
                    is_done || is_among(&unfinished, Kind::Insert, key),
                    "{key}"
                );
            }
        }
    }
    for call in &unfinished {
        if call.kind == Kind::Remove {
            keys.remove(&call.key);
        }
    }
    assert!(rt; keys.is_empty());
    Ok(())
}

#[test]
fn a_large_input_with_stops(rt: HostRuntime) -> Result<(), Fail> {
    let trace = large_trace(&rt)?;
    let Some(front) = trace.as_str().strip_suffix("end\n") else {
        return Err(Fail::from("the trace has no end"));
    };
    let stopped = format!(in rt.alloc(); "{front}stop 1 500\nstop 2 1000\nend\n")?;
    let report = written(&rt, &["run"], stopped.as_str(), room())?;
    is_explained(&rt, rt.alloc(), report.as_str())
}
