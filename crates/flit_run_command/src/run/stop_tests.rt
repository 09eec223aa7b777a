use super::tests::run;
use super::*;
use flit_workers::NoGate;
use std::alloc::Global;
use std::process::Abort;
use std::test::Fail;

const STRUCTURES: [&str; 3] = ["list", "hash 3", "tree"];

const PLACES: [&str; 3] = ["adjacent", "hashed 2", "packed"];

/// A trace in which each of so many workers inserts a key of its own, its number. Of them so many, from the first on, stop
/// after this many events.
fn trace_of(
    alloc: Global,
    structure: &str,
    place: &str,
    workers: u32,
    stopping: u32,
    stop: u64,
) -> Result<String, Fail> {
    let mut trace = format!(in alloc;
        "flit 1\nstructure {structure}\nplace {place}\nrows 200\nworkers {workers}\n"
    )?;
    for before in 0..workers {
        let key = u64::from(before) + 1;
        write!(trace, "{key} insert {key}\n")?;
    }
    for before in 0..stopping {
        let worker = u64::from(before) + 1;
        write!(trace, "stop {worker} {stop}\n")?;
    }
    trace.push_str("end\n")?;
    Ok(trace)
}

/// The keys that a line of keys has.
fn keys_in(alloc: Global, line: &str) -> Result<Vec<u64>, Fail> {
    let mut keys = Vec::new(alloc);
    for word in line.split_whitespace() {
        if let Ok(key) = word.parse::<u64>() {
            keys.push(key)?;
        }
    }
    Ok(keys)
}

/// The keys of a report of such a trace are those of the calls that were answered yes, and of some that were stopped.
fn is_explained(
    rt: &impl Abort,
    alloc: Global,
    text: &str,
    workers: u32,
    stopping: u32,
) -> Result<(), Fail> {
    let mut done = Vec::new(alloc);
    let mut stopped = Vec::new(alloc);
    let mut keys = Vec::new(alloc);
    let mut key = 0_u64;
    for line in text.lines() {
        if line.starts_with("call ") {
            key = key.saturating_add(1);
            if line.ends_with(" yes") {
                done.push(key)?;
            }
            if line.ends_with(" stopped") {
                stopped.push(key)?;
            }
        } else if line.starts_with("keys") {
            keys = keys_in(alloc, line)?;
        }
    }
    assert_eq!(rt;
        done.len().saturating_add(stopped.len()) as u64,
        u64::from(workers)
    );
    for key in &stopped {
        assert!(rt; *key <= u64::from(stopping));
    }
    for key in &done {
        assert!(rt; keys.contains(key));
    }
    for key in &keys {
        assert!(rt; done.contains(key) || stopped.contains(key));
    }
    Ok(())
}

/// A run of such a trace ends well, and its report is explained.
fn stops<R: AllocGlobal + Abort + Threads + Wait + Sync>(
    rt: &R,
    structure: &str,
    place: &str,
    workers: u32,
    stopping: u32,
    stop: u64,
) -> Result<(), Fail> {
    let alloc = rt.alloc();
    let trace = trace_of(alloc, structure, place, workers, stopping, stop)?;
    let taken = run(rt, &["run"], trace.as_str(), 0, 0, &NoGate)?;
    assert_eq!(rt; taken.status, Status::Done);
    assert!(rt; taken.told);
    let Ok(text) = str::from_utf8(taken.text.as_slice()) else {
        return Err(Fail::from("the report isn't a text"));
    };
    is_explained(rt, alloc, text, workers, stopping)
}

#[test]
fn every_stop_on_each_place(rt: HostRuntime) -> Result<(), Fail> {
    for structure in STRUCTURES {
        for place in PLACES {
            for stop in 0..30 {
                stops(&rt, structure, place, 3, 2, stop)?;
            }
        }
    }
    Ok(())
}

#[test]
fn sixty_four_workers(rt: HostRuntime) -> Result<(), Fail> {
    for structure in STRUCTURES {
        for place in PLACES {
            stops(&rt, structure, place, 64, 0, 0)?;
            stops(&rt, structure, place, 64, 32, 20)?;
        }
    }
    Ok(())
}
